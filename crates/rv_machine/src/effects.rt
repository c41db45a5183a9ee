// What instructions do with the registers and the program counter.

ghost use Rattle.std.specs.Prelude.{◌≡◌};
ghost use Rattle.rv_machine.specs.Effects.{effect_of, load_size, store_size, address_of, jump_target, branch_target};
ghost use Rattle.rv_machine.specs.Effects.{register_target};
ghost use Rattle.rv_machine.specs.Harts.{pc_of, regs_of};

use crate::hart::Hart;
use crate::memory::Size;
use rv_code::{
    BranchOffset, BranchTest, DivideOperation, Immediate12, Instr, JumpOffset, LoadOperation,
    MultiplyOperation, Reg, StoreOperation,
};
use word::Width;

/// What an instruction does, before memory has its say.
#[derive(Clone, Copy)]
pub enum Effect {
    /// The register gets this value.
    Computes(Reg, u32),
    /// The register gets the last number, which is made of the product of the two others.
    Multiplies(Reg, u32, u32, u32),
    /// The register gets the last number, which is made of the first by the second.
    Divides(Reg, u32, u32, u32),
    /// The register gets the next address, and the program counter this target.
    Jumps(Reg, u32),
    /// The program counter gets this target.
    Branches(u32),
    /// Nothing.
    Passes,
    /// The register gets what stands at this address.
    Loads(LoadOperation, Reg, u32),
    /// Bytes of the second number go to this address, the first one.
    Stores(StoreOperation, u32, u32),
    /// The environment is called.
    Calls,
    /// The debugger is called.
    Breaks,
}

/// What an instruction at the hart's program counter does.
#[inline(always)]
pub fn effect_of(hart: &Hart, instr: &Instr) -> Effect
    ensures { result ≡ effect_of instr.now (pc_of hart.now) (regs_of hart.now) }
{
    match *instr {
        Instr::Upper(operation, rd, immediate) => {
            Effect::Computes(rd, operation.value(hart.pc(), immediate))
        }
        Instr::Jump(rd, offset) => Effect::Jumps(rd, jump_target(hart, offset)),
        Instr::JumpRegister(rd, rs1, offset) => {
            Effect::Jumps(rd, register_target(hart, rs1, offset))
        }
        Instr::Branch(test, rs1, rs2, offset) => branch(hart, test, rs1, rs2, offset),
        Instr::Load(operation, rd, rs1, offset) => {
            Effect::Loads(operation, rd, address(hart, rs1, offset))
        }
        Instr::Store(operation, rs2, rs1, offset) => {
            Effect::Stores(operation, address(hart, rs1, offset), hart.reg(rs2))
        }
        Instr::Immediate(operation, rd, rs1, immediate) => {
            let value = operation.value(hart.reg(rs1), immediate.word());
            Effect::Computes(rd, value)
        }
        Instr::Shift(operation, rd, rs1, amount) => {
            let value = operation.value(hart.reg(rs1), u32::from(amount.amount()));
            Effect::Computes(rd, value)
        }
        Instr::Register(operation, rd, rs1, rs2) => {
            let value = operation.value(hart.reg(rs1), hart.reg(rs2));
            Effect::Computes(rd, value)
        }
        Instr::Multiply(operation, rd, rs1, rs2) => product(hart, operation, rd, rs1, rs2),
        Instr::Divide(operation, rd, rs1, rs2) => division(hart, operation, rd, rs1, rs2),
        Instr::Fence(_, _, _, _, _) => Effect::Passes,
        Instr::Ecall => Effect::Calls,
        Instr::Ebreak => Effect::Breaks,
    }
}

#[inline(always)]
fn branch(hart: &Hart, test: BranchTest, rs1: Reg, rs2: Reg, offset: BranchOffset) -> Effect
    ensures { result ≡ effect_of (Instr.Branch test rs1 rs2 offset) (pc_of hart.now) (regs_of hart.now) }
{
    if test.holds(hart.reg(rs1), hart.reg(rs2)) {
        Effect::Branches(branch_target(hart, offset))
    } else {
        Effect::Passes
    }
}

#[inline(always)]
fn product(hart: &Hart, operation: MultiplyOperation, rd: Reg, rs1: Reg, rs2: Reg) -> Effect
    ensures { result ≡ effect_of (Instr.Multiply operation rd rs1 rs2) (pc_of hart.now) (regs_of hart.now) }
{
    let a = hart.reg(rs1);
    let b = hart.reg(rs2);
    Effect::Multiplies(rd, a, b, operation.value(a, b))
}

#[inline(always)]
fn division(hart: &Hart, operation: DivideOperation, rd: Reg, rs1: Reg, rs2: Reg) -> Effect
    ensures { result ≡ effect_of (Instr.Divide operation rd rs1 rs2) (pc_of hart.now) (regs_of hart.now) }
{
    let a = hart.reg(rs1);
    let b = hart.reg(rs2);
    Effect::Divides(rd, a, b, operation.value(a, b))
}

/// How many bytes a load takes.
#[inline(always)]
pub fn load_size(operation: LoadOperation) -> Size
    ensures { result ≡ load_size operation }
{
    Size::of(operation.width())
}

/// How many bytes a store takes.
#[inline(always)]
pub fn store_size(operation: StoreOperation) -> Size
    ensures { result ≡ store_size operation }
{
    Size::of(operation.width())
}

/// The address of a load or a store.
#[inline(always)]
pub fn address(hart: &Hart, rs1: Reg, offset: Immediate12) -> u32
    ensures { result ≡ address_of (regs_of hart.now) rs1 offset }
{
    word::add(Width::W32, hart.reg(rs1), offset.word())
}

#[inline(always)]
fn jump_target(hart: &Hart, offset: JumpOffset) -> u32
    ensures { result ≡ jump_target (pc_of hart.now) offset }
{
    word::add(Width::W32, hart.pc(), offset.word())
}

#[inline(always)]
fn branch_target(hart: &Hart, offset: BranchOffset) -> u32
    ensures { result ≡ branch_target (pc_of hart.now) offset }
{
    word::add(Width::W32, hart.pc(), offset.word())
}

// The lowest bit is cleared.
#[inline(always)]
fn register_target(hart: &Hart, rs1: Reg, offset: Immediate12) -> u32
    ensures { result ≡ register_target (regs_of hart.now) rs1 offset }
{
    address(hart, rs1, offset) / 2 * 2
}
