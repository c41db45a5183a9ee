// Arrays between the caller's memory and the frame: by the copier that they share, or by code of their own.

ghost use Rattle.std.specs.Prelude.{◌≡◌, ◌<◌, ◌++◌, OnOk};
ghost use Rattle.functions.specs.Below.{array_code, copier_of, copy_in_code, copy_out_code, MutableArray};
ghost use Rattle.functions.specs.Below.{pointer_in_code, pointer_out_code};
ghost use Rattle.functions.specs.function_code.private.Ways.{element_code, goes_unchanged};
ghost use Rattle.functions.specs.function_code.Above.{IsAbove};

use crate::function_code::copier::{called, goes_by_call};
use crate::function_code::copying::{Way, copied};
use crate::function_code::pieces::address;
use crate::function_code::registers;
use crate::function_code::room::{Around, IN_REGISTERS, argument_offset, stacked_offset};
use expression_code::emit::load;
use expression_code::image_fields::{ImageFields, Slot};
use language::Kind;
use rv_code::{Immediate12, ImmediateOperation, Instr, Reg};
use std::alloc::{AllocError, Global};

/// An argument that points to an array into x5, before the body.
fn pointer_in(
    code: &mut Vec<Instr>,
    image: &ImageFields,
    above: u32,
    index: u16,
) -> Result<(), AllocError>
    requires { IsAbove image.now above }
    ensures { OnOk result (code.new.items ≡ code.old.items ++ pointer_in_code image.now index) }
{
    if index < IN_REGISTERS {
        let here = Immediate12::from_bits(0);
        let register = registers::argument(index);
        code.push(Instr::Immediate(ImmediateOperation::Addi, Reg::X5, register, here))?;
        return Ok(());
    }
    load(code, Reg::X5, stacked_offset(image, above, index))
}

/// And into x6, behind it.
fn pointer_out(
    code: &mut Vec<Instr>,
    image: &ImageFields,
    above: u32,
    index: u16,
) -> Result<(), AllocError>
    requires { IsAbove image.now above }
    ensures { OnOk result (code.new.items ≡ code.old.items ++ pointer_out_code image.now index) }
{
    load(code, Reg::X6, argument_offset(image, above, index))
}

/// All elements of an array, by the copier of the function or by code of their own.
fn array(
    alloc: Global,
    code: &mut Vec<Instr>,
    around: Around,
    behind: u32,
    way: Way,
    kind: Kind,
    count: u32,
) -> Result<(), AllocError>
    requires { count < 65536 }
    ensures { OnOk result (code.new.items ≡ code.old.items
        ++ array_code around.pace around.copier behind (element_code way kind) (goes_unchanged way kind) kind count) }
{
    match around.copier {
        Some(round) if goes_by_call(round, way, kind, count) => {
            called(alloc, code, round, behind, kind, count)
        }
        Some(_) | None => copied(alloc, code, around.pace, way, kind, count),
    }
}

/// The array that an argument points to into its slot.
pub fn copy_in(
    alloc: Global,
    code: &mut Vec<Instr>,
    image: &ImageFields,
    around: Around,
    behind: u32,
    index: u16,
    slot: Slot,
) -> Result<(), AllocError>
    requires above { IsAbove image.now around.above }
    requires copier { around.copier ≡ copier_of image.now around.pace }
    ensures { OnOk result (code.new.items ≡ code.old.items ++ copy_in_code image.now around.pace behind index slot) }
{
    pointer_in(code, image, around.above, index)?;
    address(code, Reg::X6, slot.offset)?;
    array(
        alloc,
        code,
        around,
        behind,
        Way::In,
        slot.param.kind,
        u32::from(slot.param.length),
    )
}

/// An array from its slot to where the argument points.
pub fn copy_out(
    alloc: Global,
    code: &mut Vec<Instr>,
    image: &ImageFields,
    around: Around,
    behind: u32,
    index: u16,
    slot: Slot,
) -> Result<(), AllocError>
    requires above { IsAbove image.now around.above }
    requires copier { around.copier ≡ copier_of image.now around.pace }
    ensures { OnOk result (code.new.items
        ≡ code.old.items ++ copy_out_code image.now around.pace behind index slot MutableArray) }
{
    address(code, Reg::X5, slot.offset)?;
    pointer_out(code, image, around.above, index)?;
    array(
        alloc,
        code,
        around,
        behind,
        Way::Out,
        slot.param.kind,
        u32::from(slot.param.length),
    )
}
