// The registers that an instruction reads, and the one that it writes.

ghost use Rattle.std.specs.Prelude.{◌≡◌};
ghost use Rattle.run_reports.specs.origins.Origins.{register_written};
ghost use Rattle.run_reports.specs.origins.Reading.{listed_reads};
ghost use Rattle.run_reports.specs.run_places.Reads.{registers_read};

use rv_code::{Instr, Reg};

/// Which registers an instruction reads, in the order of its text.
#[derive(Clone, Copy)]
pub enum Reads {
    Nothing,
    One(Reg),
    Two(Reg, Reg),
}

/// The registers that an instruction reads.
#[inline(always)]
pub fn reads_of(instr: &Instr) -> Reads
    ensures { listed_reads result ≡ registers_read instr.now }
{
    match *instr {
        Instr::Upper(_, _, _) | Instr::Jump(_, _) => Reads::Nothing,
        Instr::JumpRegister(_, rs1, _)
        | Instr::Load(_, _, rs1, _)
        | Instr::Immediate(_, _, rs1, _)
        | Instr::Shift(_, _, rs1, _) => Reads::One(rs1),
        Instr::Store(_, rs2, rs1, _) => Reads::Two(rs2, rs1),
        Instr::Branch(_, rs1, rs2, _)
        | Instr::Register(_, _, rs1, rs2)
        | Instr::Multiply(_, _, rs1, rs2)
        | Instr::Divide(_, _, rs1, rs2) => Reads::Two(rs1, rs2),
        Instr::Fence(_, _, _, _, _) | Instr::Ecall | Instr::Ebreak => Reads::Nothing,
    }
}

/// The register that an instruction gives a value.
#[inline(always)]
pub(crate) fn register_written(instr: &Instr) -> Option<Reg>
    ensures { result ≡ register_written instr.now }
{
    match *instr {
        Instr::Upper(_, rd, _)
        | Instr::Jump(rd, _)
        | Instr::JumpRegister(rd, _, _)
        | Instr::Load(_, rd, _, _)
        | Instr::Immediate(_, rd, _, _)
        | Instr::Shift(_, rd, _, _)
        | Instr::Register(_, rd, _, _)
        | Instr::Multiply(_, rd, _, _)
        | Instr::Divide(_, rd, _, _) => Some(rd),
        Instr::Branch(_, _, _, _)
        | Instr::Store(_, _, _, _)
        | Instr::Fence(_, _, _, _, _)
        | Instr::Ecall
        | Instr::Ebreak => None,
    }
}
