// What an instruction asks of what is known, and what it changes in it.

ghost use Rattle.std.specs.Prelude.{◌≡◌, ◌==◌, ◌&&◌};
ghost use Rattle.certified_runs.specs.Below.{ByteMap, Profile, regs_of, state_of};
ghost use Rattle.certified_runs.specs.Bits.{cancels};
ghost use Rattle.certified_runs.specs.Certified.{bytes_after, decides, decides_product, registers_after};
ghost use Rattle.certified_runs.specs.Parts.{known_of, register_masks};
ghost use Rattle.certified_runs.specs.private.Changes.{StoresData};
ghost use Rattle.certified_runs.specs.private.Stepped.{HaveOneExtent};

use crate::bits::{
    PartialWord, are_known, cancels, decides_branch, divide_unknown, immediate_unknown,
    multiply_unknown, register_unknown, unless,
};
use crate::known_parts::KnownParts;
use crate::shifts::decides_amount;
use rv_code::{Instr, Reg, RegisterOperation};
use rv_machine::{Hart, Memory, address, load_size, store_size};
use word::Profile;

/// Whether what an instruction shows, and where it leads, is decided by what is known.
#[inline(always)]
pub(crate) fn decides<M: Memory>(
    profile: Profile,
    instr: &Instr,
    hart: &Hart,
    known: &KnownParts<M>,
) -> bool
    ensures { (bytes : ByteMap) → result ≡ decides profile instr.now
        (known_of (state_of hart.now bytes) known.now.registers (M.bytes known.now.marks) known.now.shifts) }
{
    match *instr {
        Instr::Upper(_, _, _) | Instr::Jump(_, _) => true,
        Instr::JumpRegister(_, rs1, _) => known.knows(rs1),
        Instr::Branch(test, rs1, rs2, _) => {
            rs1 == rs2 || decides_branch(test, known.part(hart, rs1), known.part(hart, rs2))
        }
        Instr::Load(_, _, rs1, _) => known.knows(rs1),
        Instr::Store(_, _, rs1, _) => known.knows(rs1),
        Instr::Immediate(_, _, _, _) | Instr::Shift(_, _, _, _) => true,
        Instr::Register(operation, _, _, rs2) => {
            decides_amount(
                known.shifts,
                operation,
                known.part(hart, rs2).is_known_amount(),
            )
        }
        Instr::Multiply(_, _, rs1, rs2) => {
            decides_product(
                profile,
                are_known(known.part(hart, rs1), known.part(hart, rs2)),
            )
        }
        Instr::Divide(_, _, rs1, rs2) => are_known(known.part(hart, rs1), known.part(hart, rs2)),
        Instr::Fence(_, _, _, _, _) | Instr::Ecall | Instr::Ebreak => true,
    }
}

// Whether a product is known as far as the observer of this profile sees it.
#[inline(always)]
fn decides_product(profile: Profile, known: bool) -> bool
    ensures { result ≡ decides_product profile known }
{
    match profile {
        Profile::P1 => true,
        Profile::P2 => known,
    }
}

// Whether an operation of these registers gives one number, since they are one register.
#[inline(always)]
fn is_constant(operation: RegisterOperation, rs1: Reg, rs2: Reg) -> bool
    ensures { result ≡ (rs1 == rs2 && cancels operation) }
{
    rs1 == rs2 && cancels(operation)
}

/// Changes what is known as an instruction does whose step goes on from the registers of this hart.
#[inline(always)]
pub(crate) fn change<M: Memory>(instr: &Instr, hart: &Hart, known: &mut KnownParts<M>)
    ensures registers { (bytes : ByteMap) → register_masks known.new.registers ≡ registers_after instr.now
        (known_of (state_of hart.now bytes) known.old.registers (M.bytes known.old.marks) known.old.shifts) }
    ensures bytes { (bytes : ByteMap) → StoresData (M.bytes known.old.marks) instr.now (regs_of hart.now)
        → M.bytes known.new.marks ≡ bytes_after instr.now
        (known_of (state_of hart.now bytes) known.old.registers (M.bytes known.old.marks) known.old.shifts) }
    ensures shifts { known.new.shifts ≡ known.old.shifts }
    ensures extent { HaveOneExtent (M.bytes known.new.marks) (M.bytes known.old.marks) }
{
    match *instr {
        Instr::Upper(_, rd, _) | Instr::Jump(rd, _) | Instr::JumpRegister(rd, _, _) => {
            known.set_register(rd, 0);
        }
        Instr::Load(operation, rd, rs1, offset) => {
            let mask = known.number_unknown(address(hart, rs1, offset), load_size(operation));
            known.set_register(rd, operation.value(mask));
        }
        Instr::Store(operation, rs2, rs1, offset) => {
            let mask = known.unknown(rs2);
            known.set_bytes(address(hart, rs1, offset), store_size(operation), mask);
        }
        Instr::Immediate(operation, rd, rs1, immediate) => {
            let b = PartialWord::new(immediate.word(), 0);
            known.set_register(rd, immediate_unknown(operation, known.part(hart, rs1), b));
        }
        Instr::Shift(operation, rd, rs1, amount) => {
            let mask = operation.value(known.unknown(rs1), u32::from(amount.amount()));
            known.set_register(rd, mask);
        }
        Instr::Register(operation, rd, rs1, rs2) => {
            let mask = register_unknown(operation, known.part(hart, rs1), known.part(hart, rs2));
            known.set_register(rd, unless(is_constant(operation, rs1, rs2), mask));
        }
        Instr::Multiply(operation, rd, rs1, rs2) => {
            let mask = multiply_unknown(operation, known.part(hart, rs1), known.part(hart, rs2));
            known.set_register(rd, mask);
        }
        Instr::Divide(operation, rd, rs1, rs2) => {
            let mask = divide_unknown(operation, known.part(hart, rs1), known.part(hart, rs2));
            known.set_register(rd, mask);
        }
        Instr::Branch(_, _, _, _) | Instr::Fence(_, _, _, _, _) => {}
        Instr::Ecall | Instr::Ebreak => {}
    }
}
