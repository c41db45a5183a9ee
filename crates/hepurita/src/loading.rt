// Images and their arguments, loaded into a machine.

ghost use Rattle.std.specs.Prelude.{◌≡◌, ◌≤◌, length, map, All, IfOk};
ghost use Rattle.hepurita.specs.Below.{AreWithin, code_at, code_of, HasShape, IsImage, loaded_at, most_parameters};
ghost use Rattle.hepurita.specs.Below.{paged_bytes, params_of, state_of, with_argument, with_arguments, zeros};
ghost use Rattle.hepurita.specs.Bases.{code_base, frame_base};
ghost use Rattle.hepurita.specs.Frames.{HoldsSlot};

use crate::elements::{element_size, put_numbers};
use expression_code::image_fields::Slot;
use image::Image;
use language::{Arg, Args, Param};
use rv_machine::hart::Hart;
use rv_machine::memory::{Memory, Size};
use rv_machine::{AddressRange, CodeRegion, PagedMemory, Running};
use std::alloc::{AllocError, Global};

/// Where an image's code begins.
pub const CODE_BASE: u32 = 0x0001_0000;

/// Where its frame begins.
pub const FRAME_BASE: u32 = 0x1000_0000;

/// The parameters of an image, in their order.
pub fn params(alloc: Global, image: &Image) -> Result<Vec<Param>, AllocError>
    ensures params { IfOk result (λ params. params.items ≡ params_of image.now) }
    ensures few { IfOk result (λ params. length params.items ≤ most_parameters) }
    ensures allowed { IsImage image.now }
{
    image.slots().iter().map(|slot| slot.param).collect(alloc)
}

/// Puts an argument into its slot of the frame that begins at this address.
pub fn put_argument<M: Memory>(memory: &mut M, frame: u32, slot: &Slot, arg: &Arg)
    requires shape { HasShape slot.now.param.form slot.now.param.length arg.now }
    requires data { HoldsSlot frame (M.bytes memory.old) slot.now }
    ensures { M.bytes memory.new ≡ with_argument frame (M.bytes memory.old) slot.now arg.now }
{
    let at = frame + slot.offset;
    match arg {
        Arg::Word(word) => {
            memory.store(at, Size::Word, *word);
        }
        Arg::Array(words) => {
            let size = element_size(slot.param.kind);
            put_numbers(memory, at, size, words.as_slice());
        }
    }
}

/// Puts each argument into its parameter's slot of the frame that begins at this address.
pub fn put_arguments<M: Memory>(memory: &mut M, frame: u32, slots: &[Slot], args: &[Arg])
    requires count { length args.now ≡ length slots.now }
    requires within { AreWithin (map (λ slot. slot.param) slots.now) args.now }
    requires data { All (HoldsSlot frame (M.bytes memory.old)) slots.now }
    ensures { M.bytes memory.new ≡ with_arguments frame (M.bytes memory.old) slots.now args.now }
{
    for (index, slot) in slots.iter().enumerate() {
        put_argument(memory, frame, slot, &args[index]);
    }
}

/// An image's code at the standard base, for its observer.
pub fn code(alloc: Global, image: &Image) -> Result<CodeRegion, AllocError>
    ensures { IfOk result (λ code. code_of code ≡ code_at code_base image.now) }
{
    CodeRegion::new_as(alloc, CODE_BASE, image.words(), image.profile())
}

/// An image's frame at the standard base: zeros, and no other data.
pub fn frame(alloc: Global, image: &Image) -> Result<PagedMemory, AllocError>
    ensures { IfOk result (λ frame. paged_bytes frame ≡ zeros frame_base image.now.frame_bytes) }
{
    let begin = u64::from(FRAME_BASE);
    let end = begin + u64::from(image.frame_bytes());
    PagedMemory::new(alloc, &[AddressRange { begin, end }])
}

/// A run of an image, at the standard bases, on arguments that are within its parameters' types. It has
/// not begun yet.
pub fn load(alloc: Global, image: &Image, args: &Args) -> Result<Running<PagedMemory>, AllocError>
    requires { AreWithin (params_of image.now) args.now }
    ensures state { IfOk result (λ run.
        state_of run.hart (paged_bytes run.memory) ≡ loaded_at code_base frame_base image.now args.now) }
    ensures steps { IfOk result (λ run. run.steps_left ≡ image.now.max_steps) }
{
    let mut memory = frame(alloc, image)?;
    put_arguments(&mut memory, FRAME_BASE, image.slots(), args.as_slice());
    Ok(Running {
        hart: Hart::new(CODE_BASE, FRAME_BASE),
        memory,
        steps_left: image.max_steps(),
    })
}
