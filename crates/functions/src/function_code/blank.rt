// A frame of which some words are zeroed, and no others.

ghost use Rattle.std.specs.Prelude.{◌≡◌, ◌++◌, OnOk};
ghost use Rattle.functions.specs.Below.{are_few, all_fit, blank_code, fits_frame, lowered_code, most_blanks};

use crate::function_code::entering::frame_base;
use crate::function_code::pieces::added;
use linked_calls::Pace;
use rv_code::{Immediate12, ImmediateOperation, Instr, Reg, StoreOperation};
use std::alloc::AllocError;

/// From where on an offset is no immediate.
const FAR: u32 = 2048;

/// How far immediates go before they begin again.
const IMMEDIATES: u32 = 4096;

/// Whether a word at an offset can be zeroed by one store, in a frame of so many bytes.
fn fits_frame(room: u32, offset: u32) -> bool
    ensures { result ≡ fits_frame room offset }
{
    offset % 4 == 0 && offset < FAR && u64::from(offset) + 4 <= u64::from(room)
}

/// Whether these can.
fn all_fit(room: u32, offsets: &[u32]) -> bool
    ensures { result ≡ all_fit room offsets.now }
{
    for offset in offsets {
        if !fits_frame(room, *offset) {
            return false;
        }
    }
    true
}

/// How many words are zeroed one by one; where they are more, all of the frame is.
fn most_blanks(pace: Pace) -> usize
    ensures { result ≡ most_blanks pace }
{
    match pace {
        Pace::Fast => 32,
        Pace::Small => 7,
    }
}

/// Whether the words at these offsets are zeroed one by one.
pub fn are_few(pace: Pace, room: u32, offsets: &[u32]) -> bool
    ensures { result ≡ are_few pace room offsets.now }
{
    offsets.len() <= most_blanks(pace) && all_fit(room, offsets)
}

/// x2 goes down to the frame's base, by way of x5 where no immediate says how far.
pub fn lowered_stack(code: &mut Vec<Instr>, room: u32) -> Result<(), AllocError>
    ensures { OnOk result (code.new.items ≡ code.old.items ++ lowered_code room) }
{
    if room < FAR {
        code.push(added(Reg::X2, (IMMEDIATES - room) % IMMEDIATES))?;
        return Ok(());
    }
    frame_base(code, room)?;
    let here = Immediate12::from_bits(0);
    code.push(Instr::Immediate(ImmediateOperation::Addi, Reg::X2, Reg::X5, here))?;
    Ok(())
}

/// The frame's word at an offset becomes 0.
pub fn blank_word(code: &mut Vec<Instr>, offset: u32) -> Result<(), AllocError>
    ensures { OnOk result (code.new.items ≡ code.old.items ++ blank_code offset) }
{
    let place = Immediate12::from_bits(offset % IMMEDIATES);
    code.push(Instr::Store(StoreOperation::Sw, Reg::X0, Reg::X2, place))?;
    Ok(())
}
