// How much of the stack a call takes, and where its parts lie.

ghost use Rattle.std.specs.Prelude.{◌≡◌, ◌≤◌, ◌+◌, ◌*◌, length};
ghost use Rattle.functions.specs.Below.{above_frame, argument_offset, copier_of, first_argument, frame_room};
ghost use Rattle.functions.specs.Below.{needed_for, needed_from, needed_of, room_of, stacked_offset};
ghost use Rattle.functions.specs.function_code.Above.{IsAbove};

use crate::function_code::copier::copier_of;
use crate::function_code::kept::kept_count;
use expression_code::image_fields::{ImageFields, Slot};
use language::Form;
use linked_calls::{Pace, Round};

/// A block of the stack, of which x2 is always a multiple.
const BLOCK: u32 = 16;

/// The bytes of a word.
const WORD: u32 = 4;

/// How many arguments the registers a0 to a7 take.
pub const IN_REGISTERS: u16 = 8;

/// What the code around a body is made by: how many bytes stand above its frame and which copier its arrays share, both
/// found once, and the pace.
#[derive(Clone, Copy)]
pub struct Around {
    pub above: u32,
    pub copier: Option<Round>,
    pub pace: Pace,
}

/// The bytes of the frame, in whole blocks of 16.
pub(crate) fn frame_room(image: &ImageFields) -> u32
    ensures room { result ≡ frame_room image.now }
    ensures most { result ≤ 65536 }
{
    image.frame_bytes().div_ceil(BLOCK) * BLOCK
}

/// How many of a0 to a7 an argument needs behind the body.
fn needed_for(index: u16, form: Form) -> u16
    ensures needed { result ≡ needed_for index form }
    ensures few { result ≤ 8 }
{
    match form {
        Form::SingleWord | Form::FixedArray => 0,
        Form::MutableArray => { if index < IN_REGISTERS { index + 1 } else { 0 } }
    }
}

/// And all of these arguments.
fn needed_from(slots: &[Slot]) -> u16
    requires { length slots.now ≤ 8192 }
    ensures needed { result ≡ needed_from 0 slots.now }
    ensures few { result ≤ 8 }
{
    let mut needed = 0;
    let mut index = 0;
    for slot in slots {
        needed = needed.max(needed_for(index, slot.param.form));
        index += 1;
    }
    needed
}

/// How many of a0 to a7 are needed behind the body.
#[tactic(auto, using(crate::proofs::function_code_lemmas::ArgumentLemmas::registers_taken))]
pub(crate) fn needed_count(image: &ImageFields) -> u32
    ensures count { result ≡ length (needed_of image.now) }
    ensures needed { result ≡ needed_from 0 image.now.slots }
    ensures few { result ≤ 8 }
{
    u32::from(needed_from(image.slots()))
}

/// The bytes above the frame: a word for each register that is kept, and for each that is needed behind the body, in
/// whole blocks.
pub fn above_frame(image: &ImageFields) -> u32
    ensures { IsAbove image.now result }
{
    (WORD * (kept_count(image) + needed_count(image))).div_ceil(BLOCK) * BLOCK
}

/// What the code around the body of an image is made by, at a pace.
pub fn around_body(image: &ImageFields, pace: Pace) -> Around
    ensures above { IsAbove image.now result.above }
    ensures copier { result.copier ≡ copier_of image.now pace }
    ensures pace { result.pace ≡ pace }
{
    Around {
        above: above_frame(image),
        copier: copier_of(image, pace),
        pace,
    }
}

/// Where a0 is stored above the frame.
pub(crate) fn first_argument(image: &ImageFields, above: u32) -> u32
    requires { IsAbove image.now above }
    ensures place { result ≡ first_argument image.now }
    ensures ends { result + 4 * length (needed_of image.now) ≤ 80 }
{
    above - WORD * needed_count(image)
}

/// The bytes of stack that a call takes.
pub fn room_of(image: &ImageFields) -> u32
    ensures { result ≡ room_of image.now }
{
    frame_room(image) + above_frame(image)
}

/// Where an argument that no register holds stands with the caller, from the frame's base on.
pub(crate) fn stacked_offset(image: &ImageFields, above: u32, index: u16) -> u32
    requires { IsAbove image.now above }
    ensures { result ≡ stacked_offset image.now index }
{
    frame_room(image) + above + WORD * u32::from(index.saturating_sub(IN_REGISTERS))
}

/// Where an argument that points to an array that may be changed stands behind the body.
pub(crate) fn argument_offset(image: &ImageFields, above: u32, index: u16) -> u32
    requires { IsAbove image.now above }
    ensures { result ≡ argument_offset image.now index }
{
    if index < IN_REGISTERS {
        frame_room(image) + first_argument(image, above) + WORD * u32::from(index)
    } else {
        stacked_offset(image, above, index)
    }
}
