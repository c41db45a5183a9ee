// Instructions of the sections before the body.

ghost use Rattle.std.specs.Prelude.{◌≡◌, ◌++◌, ◌∷◌, [], OnOk};
ghost use Rattle.functions.specs.Below.{above_code, above_frame, argument_code, argument_register};
ghost use Rattle.functions.specs.Below.{constant_code, copier_of, meant_code, Register};
ghost use Rattle.functions.specs.Below.{stack_register, stacked_code, Sub, word_code};
ghost use Rattle.functions.specs.function_code.Above.{IsAbove};

use crate::function_code::arrays::copy_in;
use crate::function_code::pieces::added;
use crate::function_code::registers;
use crate::function_code::room::{Around, IN_REGISTERS, stacked_offset};
use expression_code::emit::{constant, load, store};
use expression_code::image_fields::{ImageFields, Slot};
use language::{Form, Kind};
use rv_code::{
    Immediate12, ImmediateOperation, Instr, Reg, RegisterOperation, ShiftAmount, ShiftOperation,
};
use std::alloc::{AllocError, Global};

/// How far immediates go before they begin again.
const IMMEDIATES: u32 = 4096;

/// Room above the frame, where anything stands there.
pub fn room_above(code: &mut Vec<Instr>, image: &ImageFields, above: u32) -> Result<(), AllocError>
    requires { IsAbove image.now above }
    ensures { OnOk result (code.new.items ≡ code.old.items ++ above_code (above_frame image.now)) }
{
    if above == 0 {
        return Ok(());
    }
    code.push(added(Reg::X2, IMMEDIATES - above))?;
    Ok(())
}

/// The frame's base into x5.
pub fn frame_base(code: &mut Vec<Instr>, room: u32) -> Result<(), AllocError>
    ensures { OnOk result (code.new.items
        ≡ code.old.items ++ (constant_code 5 room ++ Register Sub 5 stack_register 5 ∷ [])) }
{
    constant(code, Reg::X5, room)?;
    code.push(Instr::Register(RegisterOperation::Sub, Reg::X5, Reg::X2, Reg::X5))?;
    Ok(())
}

/// What a raw word in a register means by its kind.
fn meant(code: &mut Vec<Instr>, r: Reg, kind: Kind) -> Result<(), AllocError>
    ensures { OnOk result (code.new.items ≡ code.old.items ++ meant_code r kind) }
{
    match kind {
        Kind::Boolean => {
            code.push(Instr::Register(RegisterOperation::Sltu, r, Reg::X0, r))?;
            Ok(())
        }
        Kind::Uint8 => {
            let low = Immediate12::from_bits(255);
            code.push(Instr::Immediate(ImmediateOperation::Andi, r, r, low))?;
            Ok(())
        }
        Kind::Uint16 => {
            let half = ShiftAmount::from_bits(16);
            code.push(Instr::Shift(ShiftOperation::Slli, r, r, half))?;
            code.push(Instr::Shift(ShiftOperation::Srli, r, r, half))?;
            Ok(())
        }
        Kind::Uint32 => Ok(()),
    }
}

/// The register that holds an argument: that in which it is passed, or x5 once it is loaded.
fn argument_register(index: u16) -> Reg
    ensures { result ≡ argument_register index }
{
    if index < IN_REGISTERS {
        registers::argument(index)
    } else {
        Reg::X5
    }
}

/// The load of an argument that is passed on the stack.
fn stacked(
    code: &mut Vec<Instr>,
    image: &ImageFields,
    above: u32,
    index: u16,
) -> Result<(), AllocError>
    requires { IsAbove image.now above }
    ensures { OnOk result (code.new.items ≡ code.old.items ++ stacked_code image.now index) }
{
    if index < IN_REGISTERS {
        return Ok(());
    }
    load(code, Reg::X5, stacked_offset(image, above, index))
}

/// An argument that is a word into its slot.
fn word(
    code: &mut Vec<Instr>,
    image: &ImageFields,
    above: u32,
    index: u16,
    slot: Slot,
) -> Result<(), AllocError>
    requires { IsAbove image.now above }
    ensures { OnOk result (code.new.items ≡ code.old.items ++ word_code image.now index slot) }
{
    let register = argument_register(index);
    stacked(code, image, above, index)?;
    meant(code, register, slot.param.kind)?;
    store(code, register, slot.offset)
}

/// An argument into its slot, so many instructions before the copier.
pub fn argument(
    alloc: Global,
    code: &mut Vec<Instr>,
    image: &ImageFields,
    around: Around,
    behind: u32,
    index: u16,
    slot: Slot,
) -> Result<(), AllocError>
    requires above { IsAbove image.now around.above }
    requires copier { around.copier ≡ copier_of image.now around.pace }
    ensures { OnOk result (code.new.items
        ≡ code.old.items ++ argument_code image.now around.pace behind index slot slot.param.form) }
{
    match slot.param.form {
        Form::SingleWord => word(code, image, around.above, index, slot),
        Form::FixedArray | Form::MutableArray => {
            copy_in(alloc, code, image, around, behind, index, slot)
        }
    }
}
