// Instructions of the sections behind the body.

ghost use Rattle.std.specs.Prelude.{◌≡◌, ◌++◌, ◌∷◌, [], OnOk};
ghost use Rattle.functions.specs.Below.{above_frame, added, address_code, copier_of, copy_out_code, JumpRegister};
ghost use Rattle.functions.specs.Below.{link_register, onward_code, result_code};
ghost use Rattle.functions.specs.function_code.Above.{IsAbove};

use crate::function_code::arrays::copy_out;
use crate::function_code::pieces::{added, address};
use crate::function_code::registers;
use crate::function_code::room::Around;
use expression_code::emit::load;
use expression_code::image_fields::{ImageFields, ResultSlot, Slot};
use language::Form;
use rv_code::{Immediate12, ImmediateOperation, Instr, JumpOffset, Reg};
use std::alloc::{AllocError, Global};

/// The result into a0, which becomes 0 where there is none.
pub fn result(code: &mut Vec<Instr>, returned: Option<ResultSlot>) -> Result<(), AllocError>
    ensures { OnOk result (code.new.items ≡ code.old.items ++ result_code returned) }
{
    match returned {
        Some(slot) => load(code, registers::result(), slot.offset),
        None => {
            let none = Immediate12::from_bits(0);
            let a0 = registers::result();
            code.push(Instr::Immediate(ImmediateOperation::Addi, a0, Reg::X0, none))?;
            Ok(())
        }
    }
}

/// An array that may be changed back to the caller, so many instructions before the copier.
pub fn array(
    alloc: Global,
    code: &mut Vec<Instr>,
    image: &ImageFields,
    around: Around,
    behind: u32,
    index: u16,
    slot: Slot,
) -> Result<(), AllocError>
    requires above { IsAbove image.now around.above }
    requires copier { around.copier ≡ copier_of image.now around.pace }
    ensures { OnOk result (code.new.items
        ≡ code.old.items ++ copy_out_code image.now around.pace behind index slot slot.param.form) }
{
    match slot.param.form {
        Form::SingleWord | Form::FixedArray => Ok(()),
        Form::MutableArray => copy_out(alloc, code, image, around, behind, index, slot),
    }
}

/// The frame's end into x5.
pub fn frame_top(code: &mut Vec<Instr>, room: u32) -> Result<(), AllocError>
    ensures { OnOk result (code.new.items ≡ code.old.items ++ address_code 5 room) }
{
    address(code, Reg::X5, room)
}

/// The caller's x2 into x5.
pub fn callers_stack(
    code: &mut Vec<Instr>,
    image: &ImageFields,
    above: u32,
) -> Result<(), AllocError>
    requires { IsAbove image.now above }
    ensures { OnOk result (code.new.items ≡ code.old.items ++ added 5 (above_frame image.now) ∷ []) }
{
    code.push(added(Reg::X5, above))?;
    Ok(())
}

/// On to the tail that functions share, how far that may be.
pub fn go_on(code: &mut Vec<Instr>) -> Result<(), AllocError>
    ensures { OnOk result (code.new.items ≡ code.old.items ++ onward_code 0 ∷ []) }
{
    code.push(Instr::Jump(Reg::X0, JumpOffset::from_halves(0)))?;
    Ok(())
}

/// Back to the caller.
pub fn go_back(code: &mut Vec<Instr>) -> Result<(), AllocError>
    ensures { OnOk result (code.new.items ≡ code.old.items ++ JumpRegister 0 link_register 0 ∷ []) }
{
    let here = Immediate12::from_bits(0);
    code.push(Instr::JumpRegister(Reg::X0, registers::link(), here))?;
    Ok(())
}
