// An image, loaded with what is given of its arguments, and what is known of that.

ghost use Rattle.std.specs.Prelude.{◌≡◌, ℕ, ◌+◌, ◌^◌, ◌<◌, ◌≤◌, true, is_some, None, length, map, All, IfOk};
ghost use Rattle.image_reports.specs.Below.{code_base, frame_base, HoldsSlot, known_of, paged_bytes, params_of};
ghost use Rattle.image_reports.specs.Below.{state_of};
ghost use Rattle.image_reports.specs.certificates.Given.{fault_of_given};
ghost use Rattle.image_reports.specs.certificates.KnownImage.{argument_bytes, known_at, marks_with_given, with_given};
ghost use Rattle.image_reports.specs.certificates.KnownImage.{with_unknown};

use certified_runs::{KnownParts, Shifts};
use expression_code::image_fields::Slot;
use hepurita::{CODE_BASE, FRAME_BASE, frame, put_argument};
use image::Image;
use language::{Arg, Form, Param};
use rv_machine::hart::Hart;
use rv_machine::memory::{Memory, Size};
use rv_machine::{PagedMemory, Running};
use std::alloc::{AllocError, Global};

/// Each bit of a byte.
const EACH_BIT: u32 = 0xff;

/// How many bytes from its slot's offset on an argument takes.
pub(crate) fn argument_bytes(param: Param) -> u32
    ensures { result ≡ argument_bytes param.form param.kind param.length }
{
    match param.form {
        Form::SingleWord => 4,
        Form::FixedArray | Form::MutableArray => {
            u32::from(param.kind.element_bytes()) * u32::from(param.length)
        }
    }
}

/// Makes each bit of so many bytes, from this address on, unknown.
fn forget_bytes<M: Memory>(known: &mut KnownParts<M>, at: u32, bytes: u32)
    requires below { at + bytes < 2 ^ 32 }
    requires data { (x : ℕ) → at ≤ x → x < at + bytes → is_some (M.bytes known.old.marks x) ≡ true }
    ensures bytes { M.bytes known.new.marks ≡ with_unknown (M.bytes known.old.marks) bytes at }
    ensures extent { (x : ℕ) → is_some (M.bytes known.new.marks x) ≡ is_some (M.bytes known.old.marks x) }
    ensures registers { known.new.registers ≡ known.old.registers }
    ensures shifts { known.new.shifts ≡ known.old.shifts }
{
    for index in 0..bytes {
        known.set_bytes(at + index, Size::Byte, EACH_BIT);
    }
}

/// Makes the bytes of each argument that is not given unknown, in the slots of the frame that begins at this address.
fn forget_unknown<M: Memory>(
    known: &mut KnownParts<M>,
    frame: u32,
    slots: &[Slot],
    given: &[Option<Arg>],
)
    requires count { length given.now ≡ length slots.now }
    requires data { All (HoldsSlot frame (M.bytes known.old.marks)) slots.now }
    ensures bytes { M.bytes known.new.marks
        ≡ marks_with_given frame (M.bytes known.old.marks) slots.now given.now }
    ensures extent { (x : ℕ) → is_some (M.bytes known.new.marks x) ≡ is_some (M.bytes known.old.marks x) }
    ensures registers { known.new.registers ≡ known.old.registers }
    ensures shifts { known.new.shifts ≡ known.old.shifts }
{
    for (index, slot) in slots.iter().enumerate() {
        if given[index].is_none() {
            forget_bytes(known, frame + slot.offset, argument_bytes(slot.param));
        }
    }
}

/// Puts each argument that is given into its parameter's slot of the frame that begins at this address.
fn put_given<M: Memory>(memory: &mut M, frame: u32, slots: &[Slot], given: &[Option<Arg>])
    requires faultless { fault_of_given (map (λ slot. slot.param) slots.now) given.now ≡ None }
    requires data { All (HoldsSlot frame (M.bytes memory.old)) slots.now }
    ensures extent { (x : ℕ) → is_some (M.bytes memory.new x) ≡ is_some (M.bytes memory.old x) }
    ensures put { M.bytes memory.new ≡ with_given frame (M.bytes memory.old) slots.now given.now }
{
    for (index, slot) in slots.iter().enumerate() {
        if let Some(arg) = &given[index] {
            put_argument(memory, frame, slot, arg);
        }
    }
}

/// A run that has not begun yet, and what is known of its state.
#[derive(Drop)]
pub struct Loaded {
    pub run: Running<PagedMemory>,
    pub known: KnownParts<PagedMemory>,
}

/// An image, at the standard bases, with what is given of its arguments, which has no fault, and zeros for the others,
/// for an observer who sees amounts of shifts or not.
pub fn load_given(
    alloc: Global,
    image: &Image,
    given: &[Option<Arg>],
    shifts: Shifts,
) -> Result<Loaded, AllocError>
    requires { fault_of_given (params_of image.now) given.now ≡ None }
    ensures known { IfOk result (λ loaded. known_of (state_of loaded.run.hart (paged_bytes loaded.run.memory))
        loaded.known.registers (paged_bytes loaded.known.marks) loaded.known.shifts
        ≡ known_at code_base frame_base image.now given.now shifts) }
    ensures extent { IfOk result (λ loaded. (a : ℕ)
        → is_some (paged_bytes loaded.known.marks a) ≡ is_some (paged_bytes loaded.run.memory a)) }
    ensures steps { IfOk result (λ loaded. loaded.run.steps_left ≡ image.now.max_steps) }
    ensures few { IfOk result (λ loaded. loaded.run.steps_left < 2 ^ 62) }
{
    let mut memory = frame(alloc, image)?;
    put_given(&mut memory, FRAME_BASE, image.slots(), given);
    let mut known = KnownParts::new(frame(alloc, image)?, shifts);
    forget_unknown(&mut known, FRAME_BASE, image.slots(), given);
    Ok(Loaded {
        run: Running {
            hart: Hart::new(CODE_BASE, FRAME_BASE),
            memory,
            steps_left: image.max_steps(),
        },
        known,
    })
}
