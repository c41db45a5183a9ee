// From an instruction to its word.

ghost use Rattle.std.specs.Prelude.{◌≡◌, ◌<◌};
ghost use Rattle.rv_code.specs.Words.{word_of, IsInstr, r_type, i_type, s_type, b_type, u_type, j_type, shift_type};
ghost use Rattle.rv_code.specs.Words.{fence_word, op_opcode, muldiv_funct7};

use crate::instructions::Instr;
use crate::operations::{
    BRANCH, EBREAK, ECALL, JAL, JALR, LOAD, MISC_MEM, MULDIV, OP, OP_IMM, STORE,
};
use crate::{BranchOffset, FenceBits, Immediate12, JumpOffset, Reg, ShiftAmount, UpperImmediate};

/// The word of an instruction.
#[tactic(auto, unfolding(crate::specs::Words::word_of))]
pub fn encode(instruction: Instr) -> u32
    ensures word { result ≡ word_of instruction }
    ensures in_range { IsInstr instruction }
{
    match instruction {
        Instr::Upper(operation, rd, immediate) => u_type(operation.row().opcode, rd, immediate),
        Instr::Jump(rd, offset) => j_type(JAL, rd, offset),
        Instr::JumpRegister(rd, rs1, offset) => i_type(JALR, 0, rd, rs1, offset),
        Instr::Branch(test, rs1, rs2, offset) => {
            b_type(BRANCH, test.row().funct3, rs1, rs2, offset)
        }
        Instr::Load(operation, rd, rs1, offset) => {
            i_type(LOAD, operation.row().funct3, rd, rs1, offset)
        }
        Instr::Store(operation, rs2, rs1, offset) => {
            s_type(STORE, operation.row().funct3, rs1, rs2, offset)
        }
        Instr::Immediate(operation, rd, rs1, immediate) => {
            i_type(OP_IMM, operation.row().funct3, rd, rs1, immediate)
        }
        Instr::Shift(operation, rd, rs1, amount) => {
            let row = operation.row();
            shift_type(row.funct3, row.funct7, rd, rs1, amount)
        }
        Instr::Register(operation, rd, rs1, rs2) => {
            let row = operation.row();
            r_type(OP, row.funct3, row.funct7, rd, rs1, rs2)
        }
        Instr::Multiply(operation, rd, rs1, rs2) => m_type(operation.row().funct3, rd, rs1, rs2),
        Instr::Divide(operation, rd, rs1, rs2) => m_type(operation.row().funct3, rd, rs1, rs2),
        Instr::Fence(mode, before, after, rs1, rd) => fence_word(mode, before, after, rs1, rd),
        Instr::Ecall => ECALL,
        Instr::Ebreak => EBREAK,
    }
}

fn r_type(opcode: u32, funct3: u32, funct7: u32, rd: Reg, rs1: Reg, rs2: Reg) -> u32
    requires opcode_fits { opcode < 128 }
    requires funct3_fits { funct3 < 8 }
    requires funct7_fits { funct7 < 128 }
    ensures { result ≡ r_type opcode funct3 funct7 rd rs1 rs2 }
{
    opcode
        + (bits(rd) << 7)
        + (funct3 << 12)
        + (bits(rs1) << 15)
        + (bits(rs2) << 20)
        + (funct7 << 25)
}

fn m_type(funct3: u32, rd: Reg, rs1: Reg, rs2: Reg) -> u32
    requires { funct3 < 8 }
    ensures { result ≡ r_type op_opcode funct3 muldiv_funct7 rd rs1 rs2 }
{
    r_type(OP, funct3, MULDIV, rd, rs1, rs2)
}

fn i_type(opcode: u32, funct3: u32, rd: Reg, rs1: Reg, immediate: Immediate12) -> u32
    requires opcode_fits { opcode < 128 }
    requires funct3_fits { funct3 < 8 }
    ensures { result ≡ i_type opcode funct3 rd rs1 immediate }
{
    let immediate = u32::from(immediate.field());
    opcode + (bits(rd) << 7) + (funct3 << 12) + (bits(rs1) << 15) + (immediate << 20)
}

fn shift_type(funct3: u32, funct7: u32, rd: Reg, rs1: Reg, amount: ShiftAmount) -> u32
    requires funct3_fits { funct3 < 8 }
    requires funct7_fits { funct7 < 128 }
    ensures { result ≡ shift_type funct3 funct7 rd rs1 amount }
{
    let amount = u32::from(amount.amount());
    OP_IMM + (bits(rd) << 7) + (funct3 << 12) + (bits(rs1) << 15) + (amount << 20) + (funct7 << 25)
}

fn s_type(opcode: u32, funct3: u32, rs1: Reg, rs2: Reg, immediate: Immediate12) -> u32
    requires opcode_fits { opcode < 128 }
    requires funct3_fits { funct3 < 8 }
    ensures { result ≡ s_type opcode funct3 rs1 rs2 immediate }
{
    let immediate = u32::from(immediate.field());
    opcode
        + (immediate % 32 << 7)
        + (funct3 << 12)
        + (bits(rs1) << 15)
        + (bits(rs2) << 20)
        + (immediate / 32 << 25)
}

fn b_type(opcode: u32, funct3: u32, rs1: Reg, rs2: Reg, offset: BranchOffset) -> u32
    requires opcode_fits { opcode < 128 }
    requires funct3_fits { funct3 < 8 }
    ensures { result ≡ b_type opcode funct3 rs1 rs2 offset }
{
    let halves = u32::from(offset.halves());
    opcode
        + ((halves >> 10) % 2 << 7)
        + (halves % 16 << 8)
        + (funct3 << 12)
        + (bits(rs1) << 15)
        + (bits(rs2) << 20)
        + ((halves >> 4) % 64 << 25)
        + (halves >> 11 << 31)
}

fn u_type(opcode: u32, rd: Reg, immediate: UpperImmediate) -> u32
    requires { opcode < 128 }
    ensures { result ≡ u_type opcode rd immediate }
{
    opcode + (bits(rd) << 7) + (immediate.field() << 12)
}

fn j_type(opcode: u32, rd: Reg, offset: JumpOffset) -> u32
    requires { opcode < 128 }
    ensures { result ≡ j_type opcode rd offset }
{
    let halves = offset.halves();
    opcode
        + (bits(rd) << 7)
        + ((halves >> 11) % 256 << 12)
        + ((halves >> 10) % 2 << 20)
        + (halves % 1024 << 21)
        + (halves >> 19 << 31)
}

fn fence_word(mode: FenceBits, before: FenceBits, after: FenceBits, rs1: Reg, rd: Reg) -> u32
    ensures { result ≡ fence_word mode before after rs1 rd }
{
    MISC_MEM
        + (bits(rd) << 7)
        + (bits(rs1) << 15)
        + (u32::from(after.bits()) << 20)
        + (u32::from(before.bits()) << 24)
        + (u32::from(mode.bits()) << 28)
}

fn bits(register: Reg) -> u32
    ensures value { result ≡ register }
    ensures fits { register < 32 }
{
    u32::from(register.number())
}
