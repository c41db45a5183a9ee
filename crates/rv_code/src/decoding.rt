// From a word to its instruction.
//
// The fields of a word suggest one instruction at most, and the word is that instruction's if it is its word.

ghost use Rattle.std.specs.Prelude.{◌≡◌, Some, IfSome};
ghost use Rattle.rv_code.specs.Words.{word_of, IsInstr};
ghost use Rattle.rv_code.specs.private.Reading.{branch_at, load_at, store_at, immediate_at, shift_at, register_with};
ghost use Rattle.rv_code.specs.private.Reading.{register_at, multiply_at, divide_at, reading};
ghost use Rattle.rv_code.specs.declared.instructions.Instr.{Instr};

use crate::encoding::encode;
use crate::fields::{
    b_offset, fence_after, fence_before, fence_mode, funct3, funct7, i_immediate, j_offset, rd,
    rs1, rs2, s_immediate, shift_amount, u_immediate,
};
use crate::instructions::Instr;
use crate::operations::{
    AUIPC, BRANCH, BranchTest, DivideOperation, ECALL, ImmediateOperation, JAL, JALR, LOAD, LUI,
    LoadOperation, MISC_MEM, MULDIV, MultiplyOperation, OP, OP_IMM, RegisterOperation, STORE,
    SYSTEM, ShiftOperation, StoreOperation, UpperOperation,
};

/// The instruction whose word this is, or `None` where there is none.
pub fn decode(word: u32) -> Option<Instr>
    ensures found { IfSome result (λ i. IsInstr i × (word_of i ≡ word)) }
    ensures only { (i : Instr) → IsInstr i → word_of i ≡ word → result ≡ Some i }
{
    if encode(suggested(word)?) == word {
        suggested(word)
    } else {
        None
    }
}

#[tactic(auto, unfolding(crate::specs::private::Reading::reading))]
fn suggested(word: u32) -> Option<Instr>
    ensures { result ≡ reading word }
{
    match word % 128 {
        LUI => Some(Instr::Upper(UpperOperation::Lui, rd(word), u_immediate(word))),
        AUIPC => Some(Instr::Upper(UpperOperation::Auipc, rd(word), u_immediate(word))),
        OP_IMM => {
            if funct3(word) % 4 == 1 {
                shift(word)
            } else {
                immediate(word)
            }
        }
        OP => {
            if funct7(word) != MULDIV {
                register(word)
            } else if funct3(word) < 4 {
                multiply(word)
            } else {
                divide(word)
            }
        }
        LOAD => load(word),
        STORE => store(word),
        BRANCH => branch(word),
        JAL => Some(Instr::Jump(rd(word), j_offset(word))),
        JALR => Some(Instr::JumpRegister(rd(word), rs1(word), i_immediate(word))),
        MISC_MEM => {
            let (mode, before, after) = (fence_mode(word), fence_before(word), fence_after(word));
            Some(Instr::Fence(mode, before, after, rs1(word), rd(word)))
        }
        SYSTEM => Some(if word == ECALL {
            Instr::Ecall
        } else {
            Instr::Ebreak
        }),
        _ => None,
    }
}

#[tactic(auto, unfolding(crate::specs::private::Reading::branch_at))]
fn branch(word: u32) -> Option<Instr>
    ensures { result ≡ branch_at word }
{
    let test = BranchTest::BY_FUNCT3.get(funct3(word) as usize).copied()?;
    Some(Instr::Branch(test, rs1(word), rs2(word), b_offset(word)))
}

#[tactic(auto, unfolding(crate::specs::private::Reading::load_at))]
fn load(word: u32) -> Option<Instr>
    ensures { result ≡ load_at word }
{
    let operation = LoadOperation::BY_FUNCT3
        .get(funct3(word) as usize)
        .copied()?;
    Some(Instr::Load(operation, rd(word), rs1(word), i_immediate(word)))
}

#[tactic(auto, unfolding(crate::specs::private::Reading::store_at))]
fn store(word: u32) -> Option<Instr>
    ensures { result ≡ store_at word }
{
    let operation = StoreOperation::BY_FUNCT3
        .get(funct3(word) as usize)
        .copied()?;
    Some(Instr::Store(operation, rs2(word), rs1(word), s_immediate(word)))
}

#[tactic(auto, unfolding(crate::specs::private::Reading::immediate_at))]
fn immediate(word: u32) -> Option<Instr>
    ensures { result ≡ immediate_at word }
{
    let operation = ImmediateOperation::BY_FUNCT3
        .get(funct3(word) as usize)
        .copied()?;
    Some(Instr::Immediate(operation, rd(word), rs1(word), i_immediate(word)))
}

#[tactic(auto, unfolding(crate::specs::private::Reading::shift_at))]
fn shift(word: u32) -> Option<Instr>
    ensures { result ≡ shift_at word }
{
    let operation = if funct3(word) == 1 {
        ShiftOperation::Slli
    } else if funct7(word) == 0 {
        ShiftOperation::Srli
    } else {
        ShiftOperation::Srai
    };
    Some(Instr::Shift(operation, rd(word), rs1(word), shift_amount(word)))
}

fn register_operation(funct3: u32, funct7: u32) -> Option<RegisterOperation>
    ensures { result ≡ register_with funct3 funct7 }
{
    if funct7 == 0 {
        RegisterOperation::BY_FUNCT3.get(funct3 as usize).copied()
    } else {
        RegisterOperation::BY_FUNCT3_BESIDE
            .get(funct3 as usize)
            .copied()
    }
}

#[tactic(auto, unfolding(crate::specs::private::Reading::register_at))]
fn register(word: u32) -> Option<Instr>
    ensures { result ≡ register_at word }
{
    let operation = register_operation(funct3(word), funct7(word))?;
    Some(Instr::Register(operation, rd(word), rs1(word), rs2(word)))
}

#[tactic(auto, unfolding(crate::specs::private::Reading::multiply_at))]
fn multiply(word: u32) -> Option<Instr>
    ensures { result ≡ multiply_at word }
{
    let operation = MultiplyOperation::BY_FUNCT3
        .get(funct3(word) as usize)
        .copied()?;
    Some(Instr::Multiply(operation, rd(word), rs1(word), rs2(word)))
}

#[tactic(auto, unfolding(crate::specs::private::Reading::divide_at))]
fn divide(word: u32) -> Option<Instr>
    ensures { result ≡ divide_at word }
{
    let operation = DivideOperation::BY_FUNCT3
        .get((funct3(word) % 4) as usize)
        .copied()?;
    Some(Instr::Divide(operation, rd(word), rs1(word), rs2(word)))
}
