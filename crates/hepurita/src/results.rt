// The outcome that a run leaves in its frame, and the space for it, which is made before the run.

ghost use Rattle.std.specs.Prelude.{◌≡◌, ◌+◌, ◌^◌, ◌<◌, IfOk};
ghost use Rattle.hepurita.specs.Below.{arrays_in, results_in};
ghost use Rattle.hepurita.specs.Frames.{IsSpaceFor};

use crate::elements::{element_size, numbers};
use expression_code::image_fields::Slot;
use image::Image;
use language::{Form, Numbers, Outcome};
use rv_machine::memory::{Memory, Size};
use std::alloc::{AllocError, Global};

/// The slot of a `mut` array, and space for its words.
#[derive(Debug, Drop)]
struct ArraySpace {
    slot: Slot,
    words: Vec<u32>,
}

/// Space for the `mut` arrays of an image: once it is made, an outcome takes no memory.
#[derive(Debug, Drop)]
pub struct ResultSpace {
    each: Vec<ArraySpace>,
    arrays: Vec<Numbers>,
}

/// Space for the `mut` arrays of an image.
pub fn result_space(alloc: Global, image: &Image) -> Result<ResultSpace, AllocError>
    ensures { IfOk result (IsSpaceFor image.now) }
{
    let mut each = Vec::new(alloc);
    for slot in image.slots() {
        if slot.param.form == Form::MutableArray {
            let words = Vec::with_capacity(alloc, slot.param.length as usize)?;
            each.push(ArraySpace { slot: *slot, words })?;
        }
    }
    let arrays = Vec::with_capacity(alloc, each.len())?;
    Ok(ResultSpace { each, arrays })
}

/// The final words of each `mut` array, of the frame that begins at this address.
fn arrays<M: Memory>(image: &Image, memory: &M, frame: u32, space: ResultSpace) -> Vec<Numbers>
    requires frame { frame + image.now.frame_bytes < 2 ^ 32 }
    requires space { IsSpaceFor image.now space }
    ensures { result.items ≡ arrays_in frame (M.bytes memory.now) image.now.slots }
{
    let ResultSpace { each, mut arrays } = space;
    for one in each {
        let ArraySpace { slot, words } = one;
        let Slot { param, offset } = slot;
        let size = element_size(param.kind);
        let words = numbers(memory, frame + offset, size, param.length, words);
        arrays.push_reserved(Numbers::new(words));
    }
    arrays
}

/// The outcome that the slots hold of the frame that begins at this address.
pub fn outcome<M: Memory>(image: &Image, memory: &M, frame: u32, space: ResultSpace) -> Outcome
    requires frame { frame + image.now.frame_bytes < 2 ^ 32 }
    requires space { IsSpaceFor image.now space }
    ensures { result ≡ results_in frame image.now (M.bytes memory.now) }
{
    let returned = match image.returned() {
        Some(slot) => Some(memory.load(frame + slot.offset, Size::Word).unwrap_or(0)),
        None => None,
    };
    Outcome::new(returned, arrays(image, memory, frame, space))
}
