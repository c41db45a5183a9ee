// Instructions for control values, which are masks, each in its home or in its slot.

ghost use Rattle.std.specs.Prelude.{◌≡◌, ◌<◌, ◌++◌, ◌∷◌, [], OnOk};
ghost use Rattle.codegen.specs.Below.{IsAmong};
ghost use Rattle.codegen.specs.private.Erased.{erase_code, erase_under_code};
ghost use Rattle.codegen.specs.private.Emitted.{masks_code, join_code, kept_code, merge_code, taken_code};
ghost use Rattle.codegen.specs.private.Emitted.{unless_unread};
ghost use Rattle.expression_code.specs.Allocation.{is_unread, register_of};
ghost use Rattle.expression_code.specs.Layout.{control_location};

use expression_code::emit::{MINUS_ONE, load, store};
use expression_code::{Layout, Location, fetch};
use rv_code::{Immediate12, ImmediateOperation, Instr, Reg, RegisterOperation};
use std::alloc::AllocError;

/// The register that a control value comes into, unless nothing reads it.
#[derive(Clone, Copy)]
pub struct Target {
    pub register: Reg,
    pub is_unread: bool,
}

/// Where a control value comes into: its home, or a spare register.
pub fn target_of(layout: &Layout<'_>, control: u32, spare: Reg) -> Target
    requires { control < layout.now.controls }
    ensures { result ≡ record {
      register = register_of (control_location layout.now control) spare;
      is_unread = is_unread layout.now.allocation control;
    } }
{
    Target {
        register: layout.control_location(control).register(spare),
        is_unread: layout.is_unread(control),
    }
}

/// Of a condition in a register, into two registers the mask for where it is true, and the one for where it is not,
/// but for one that nothing reads.
fn masks(
    code: &mut Vec<Instr>,
    accepted: &Target,
    otherwise: &Target,
    condition: Reg,
) -> Result<(), AllocError>
    ensures { OnOk result (code.new.items ≡ code.old.items
        ++ masks_code accepted.now.is_unread otherwise.now.is_unread accepted.now.register otherwise.now.register
        condition) }
{
    let less_one = Immediate12::from_bits(MINUS_ONE);
    let one = Instr::Register(
        RegisterOperation::Sub,
        accepted.register,
        Reg::X0,
        condition,
    );
    let other = Instr::Immediate(
        ImmediateOperation::Addi,
        otherwise.register,
        condition,
        less_one,
    );
    unless_unread(code, accepted.is_unread, one)?;
    unless_unread(code, otherwise.is_unread, other)
}

/// An instruction, unless nothing reads what it writes.
fn unless_unread(
    code: &mut Vec<Instr>,
    is_unread: bool,
    instruction: Instr,
) -> Result<(), AllocError>
    ensures { OnOk result (code.new.items ≡ code.old.items ++ unless_unread is_unread (instruction ∷ [])) }
{
    if !is_unread {
        code.push(instruction)?;
    }
    Ok(())
}

/// Both masks joined with one in a register, into two registers. Where the first of them has that one itself, it is
/// written last.
fn join(
    code: &mut Vec<Instr>,
    accepted: &Target,
    otherwise: &Target,
    mask: Reg,
) -> Result<(), AllocError>
    ensures { OnOk result (code.new.items ≡ code.old.items
        ++ join_code accepted.now.is_unread otherwise.now.is_unread accepted.now.register otherwise.now.register mask) }
{
    let one = Instr::Register(RegisterOperation::And, accepted.register, Reg::X7, mask);
    let other = Instr::Register(RegisterOperation::And, otherwise.register, Reg::X5, mask);
    if accepted.register == mask {
        unless_unread(code, otherwise.is_unread, other)?;
        unless_unread(code, accepted.is_unread, one)
    } else {
        unless_unread(code, accepted.is_unread, one)?;
        unless_unread(code, otherwise.is_unread, other)
    }
}

/// The masks of a condition in a register into two registers, joined with the enclosing control value, where there is
/// one.
pub fn taken(
    code: &mut Vec<Instr>,
    layout: &Layout<'_>,
    accepted: &Target,
    otherwise: &Target,
    condition: Reg,
    within: Option<u32>,
) -> Result<(), AllocError>
    requires { IsAmong layout.now.controls within }
    ensures { OnOk result (code.new.items ≡ code.old.items
        ++ taken_code layout.now accepted.now.is_unread otherwise.now.is_unread accepted.now.register
        otherwise.now.register condition within) }
{
    let Some(enclosing) = within else {
        return masks(code, accepted, otherwise, condition);
    };
    let enclosing = layout.control_location(enclosing);
    let first = Target {
        register: Reg::X7,
        is_unread: accepted.is_unread,
    };
    let second = Target {
        register: Reg::X5,
        is_unread: otherwise.is_unread,
    };
    masks(code, &first, &second, condition)?;
    fetch(code, &enclosing, Reg::X6)?;
    join(code, accepted, otherwise, enclosing.register(Reg::X6))
}

/// A control value's register into its slot, unless it has a home or nothing reads it.
pub fn keep(
    code: &mut Vec<Instr>,
    layout: &Layout<'_>,
    control: u32,
    register: Reg,
) -> Result<(), AllocError>
    requires { control < layout.now.controls }
    ensures { OnOk result (code.new.items ≡ code.old.items
        ++ unless_unread (is_unread layout.now.allocation control)
        (kept_code (control_location layout.now control) register)) }
{
    if layout.is_unread(control) {
        return Ok(());
    }
    match layout.control_location(control) {
        Location::InRegister(_) => Ok(()),
        Location::InSlot(offset) => store(code, register, offset),
    }
}

/// The new word where the mask is all ones, and the old one where it is 0, into a register; the scratch one is written
/// too.
pub fn merge(
    code: &mut Vec<Instr>,
    target: Reg,
    scratch: Reg,
    new: Reg,
    old: Reg,
    mask: Reg,
) -> Result<(), AllocError>
    ensures { OnOk result (code.new.items ≡ code.old.items ++ merge_code target scratch new old mask) }
{
    code.push(Instr::Register(RegisterOperation::Xor, scratch, new, old))?;
    code.push(Instr::Register(RegisterOperation::And, scratch, scratch, mask))?;
    code.push(Instr::Register(RegisterOperation::Xor, target, old, scratch))?;
    Ok(())
}

/// 0 where the mask is all ones, and the old word where it is 0, into a register; the scratch one is written too.
fn erase(
    code: &mut Vec<Instr>,
    target: Reg,
    scratch: Reg,
    old: Reg,
    mask: Reg,
) -> Result<(), AllocError>
    ensures { OnOk result (code.new.items ≡ code.old.items ++ erase_code target scratch old mask) }
{
    let ones = Immediate12::from_bits(MINUS_ONE);
    code.push(Instr::Immediate(ImmediateOperation::Xori, scratch, mask, ones))?;
    code.push(Instr::Register(RegisterOperation::And, target, old, scratch))?;
    Ok(())
}

/// 0 where a control value is true, and else the old word, into a variable: it is written in any case.
pub fn erase_under(
    code: &mut Vec<Instr>,
    variable: &Location,
    control: &Location,
) -> Result<(), AllocError>
    ensures { OnOk result (code.new.items ≡ code.old.items ++ erase_under_code variable.now control.now) }
{
    let mask = control.register(Reg::X7);
    match variable {
        Location::InRegister(home) => {
            fetch(code, control, Reg::X7)?;
            erase(code, *home, Reg::X5, *home, mask)
        }
        Location::InSlot(offset) => {
            load(code, Reg::X6, *offset)?;
            fetch(code, control, Reg::X7)?;
            erase(code, Reg::X5, Reg::X5, Reg::X6, mask)?;
            store(code, Reg::X5, *offset)
        }
    }
}
