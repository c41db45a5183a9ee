// Instructions that are run again and again or not at all: what stands between jumps.

ghost use Rattle.std.specs.Prelude.{◌≡◌, ◌++◌, ◌+◌, ◌*◌, ◌^◌, ◌<◌, ◌≤◌, length, IfErr, OnOk};
ghost use Rattle.codegen.specs.declared.unemitted.Unemitted.TheVariants.{TooFar};
ghost use Rattle.codegen.specs.private.Jumps.{skip, over, back, leave, branch_code, unless_code, loop_code};
ghost use Rattle.codegen.specs.private.Jumps.{again_code, AreNear, IsFar};

use crate::unemitted::Unemitted;
use rv_code::{BranchOffset, BranchTest, Instr, JumpOffset, Reg};
use std::alloc::AllocError;

/// The values that a jump's offset may have, in halves.
const JUMP_HALVES: u32 = 1 << 20;

/// The values that a branch's offset may have, in halves.
const BRANCH_HALVES: u32 = 1 << 12;

/// So many instructions between jumps are farther than these go.
const FAR: usize = 262_140;

/// A branch's test of two registers.
#[derive(Clone, Copy)]
pub struct Test {
    pub test: BranchTest,
    pub left: Reg,
    pub right: Reg,
}

/// Over the next instruction, where a register is not 0.
fn skip(register: Reg) -> Instr
    ensures { result ≡ skip register }
{
    Instr::Branch(
        BranchTest::Bne,
        register,
        Reg::X0,
        BranchOffset::from_halves(4),
    )
}

/// Over so many instructions.
fn over(count: usize) -> Instr
    requires { 2 * count + 2 < 2 ^ 20 }
    ensures { result ≡ over count }
{
    Instr::Jump(Reg::X0, JumpOffset::from_halves(2 * count as u32 + 2))
}

/// Back to the first of so many instructions before it.
fn back(count: usize) -> Instr
    requires some { 0 < count }
    requires near { 2 * count < 2 ^ 20 }
    ensures { result ≡ back count }
{
    Instr::Jump(
        Reg::X0,
        JumpOffset::from_halves(JUMP_HALVES - 2 * count as u32),
    )
}

/// Refuses two pieces of so many instructions, where jumps do not reach over them.
pub fn reach(one: usize, other: usize) -> Result<(), Unemitted>
    ensures near { OnOk result (AreNear one other) }
    ensures far { IfErr result (IsFar (one + other)) }
    ensures refusal { IfErr result (λ error. error ≡ TooFar) }
{
    if one.saturating_add(other) < FAR {
        Ok(())
    } else {
        Err(Unemitted::TooFar)
    }
}

/// The first instructions where a register is not 0, and else the second.
pub fn branch(
    code: &mut Vec<Instr>,
    register: Reg,
    accepted: &[Instr],
    otherwise: &[Instr],
) -> Result<(), AllocError>
    requires { AreNear (length accepted.now) (length otherwise.now) }
    ensures { OnOk result (code.new.items ≡ code.old.items ++ branch_code register accepted.now otherwise.now) }
{
    code.push(skip(register))?;
    code.push(over(accepted.len() + 1))?;
    code.extend_from_slice(accepted)?;
    code.push(over(otherwise.len()))?;
    code.extend_from_slice(otherwise)?;
    Ok(())
}

/// How many jumps go over instructions: one, where there are any.
fn leaving(otherwise: &[Instr]) -> usize
    ensures { result ≡ length (leave otherwise.now) }
{
    if otherwise.is_empty() { 0 } else { 1 }
}

/// A jump over instructions, where there are any, and then these.
fn leave(code: &mut Vec<Instr>, otherwise: &[Instr]) -> Result<(), AllocError>
    requires { 2 * length otherwise.now + 2 < 2 ^ 20 }
    ensures { OnOk result (code.new.items ≡ code.old.items ++ (leave otherwise.now ++ otherwise.now)) }
{
    if !otherwise.is_empty() {
        let past = over(otherwise.len());
        code.push(past)?;
        code.extend_from_slice(otherwise)?;
    }
    Ok(())
}

/// The first instructions unless two registers pass a test, and else the second.
pub fn unless(
    code: &mut Vec<Instr>,
    test: &Test,
    accepted: &[Instr],
    otherwise: &[Instr],
) -> Result<(), AllocError>
    requires short { length accepted.now < 1000 }
    requires near { AreNear (length accepted.now) (length otherwise.now) }
    ensures { OnOk result (code.new.items ≡ code.old.items ++ unless_code test.now accepted.now otherwise.now) }
{
    let count = accepted.len() + leaving(otherwise);
    let behind = BranchOffset::from_halves(2 * count as u32 + 2);
    code.push(Instr::Branch(test.test, test.left, test.right, behind))?;
    code.extend_from_slice(accepted)?;
    leave(code, otherwise)
}

/// A test, and as long as its value is not 0 the body, and the test again.
pub fn repeat(code: &mut Vec<Instr>, test: &[Instr], body: &[Instr]) -> Result<(), AllocError>
    requires { AreNear (length test.now) (length body.now) }
    ensures { OnOk result (code.new.items ≡ code.old.items ++ loop_code test.now body.now) }
{
    code.extend_from_slice(test)?;
    code.push(skip(Reg::X5))?;
    code.push(over(body.len() + 1))?;
    code.extend_from_slice(body)?;
    code.push(back(test.len() + 2 + body.len()))?;
    Ok(())
}

/// A body, and as long as a register is not 0 the body again.
pub fn again(code: &mut Vec<Instr>, register: Reg, body: &[Instr]) -> Result<(), AllocError>
    requires some { 0 < length body.now }
    requires near { 2 * length body.now ≤ 2 ^ 11 }
    ensures { OnOk result (code.new.items ≡ code.old.items ++ again_code register body.now) }
{
    let back = BranchOffset::from_halves(BRANCH_HALVES - 2 * body.len() as u32);
    code.extend_from_slice(body)?;
    code.push(Instr::Branch(BranchTest::Bne, register, Reg::X0, back))?;
    Ok(())
}
