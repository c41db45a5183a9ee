// 16-bit instructions: from a halfword to the instruction of 32 bits that it means.
//
// The low two bits of a halfword tell its quadrant, and the high three a row of it, or a few rows that other fields
// tell apart. What is in no row is reserved, or an instruction of floating point or of wider registers.

ghost use Rattle.std.specs.Prelude.{◌≡◌, ◌≢◌, ◌↔◌, IfSome, IsTrue, Some, None};
ghost use Rattle.rv_code.specs.declared.instructions.Instr.{Instr};
ghost use Rattle.rv_code.specs.Words.{IsInstr};
ghost use Rattle.rv_code.specs.Compressed.{BeginsWord, ExpandsTo, short_register, branch_offset_of};
ghost use Rattle.rv_code.specs.private.Halfwords.{compressed_at, expanded, quadrant_0_at, stack_address_at};
ghost use Rattle.rv_code.specs.private.Halfwords.{quadrant_1_at, upper_at, stack_change_at, arithmetic_at};
ghost use Rattle.rv_code.specs.private.Halfwords.{two_registers_at, quadrant_2_at, stack_load_at, move_or_jump_at};
ghost use Rattle.rv_code.specs.private.Halfwords.{add_or_call_at, short_rs1_at, branch_offset_at, bit_12_at};
ghost use Rattle.rv_code.specs.private.Halfwords.{rs2_at};

mod fields;

use crate::instructions::Instr;
use crate::{
    BranchTest, Immediate12, ImmediateOperation, LoadOperation, Reg, RegisterOperation,
    ShiftOperation, StoreOperation, UpperOperation,
};
use fields::{
    bit_12, branch_offset, funct2, funct3, jump_offset, low_funct2, rd, rs2, shift_amount,
    short_rs1, short_rs2, small_field, small_immediate, stack_address_immediate,
    stack_change_field, stack_change_immediate, stack_load_offset, stack_store_offset,
    upper_immediate, word_offset,
};

/// Whether an instruction that begins with this halfword has 32 bits. Any other has these 16 alone.
pub fn begins_word(halfword: u16) -> bool
    ensures { IsTrue result ↔ BeginsWord halfword }
{
    halfword % 4 == 0b11
}

/// The instruction of 32 bits that a 16-bit instruction means, or `None` where the halfword is no instruction.
pub fn expand(halfword: u16) -> Option<Instr>
    ensures found { IfSome result (ExpandsTo halfword) }
    ensures only { (i : Instr) → ExpandsTo halfword i → result ≡ Some i }
    ensures in_range { IfSome result IsInstr }
{
    expansion(u32::from(halfword))
}

#[tactic(auto, unfolding(crate::specs::private::Halfwords::compressed_at))]
fn expansion(halfword: u32) -> Option<Instr>
    ensures { result ≡ expanded (compressed_at halfword) }
{
    match halfword % 4 {
        0b00 => quadrant_0(halfword),
        0b01 => quadrant_1(halfword),
        0b10 => quadrant_2(halfword),
        _ => None,
    }
}

// C.ADDI4SPN, C.LW and C.SW.
#[tactic(auto, unfolding(crate::specs::private::Halfwords::quadrant_0_at))]
fn quadrant_0(halfword: u32) -> Option<Instr>
    ensures { result ≡ expanded (quadrant_0_at halfword) }
{
    let (register, base) = (short_rs2(halfword), short_rs1(halfword));
    match funct3(halfword) {
        0b000 => stack_address(halfword),
        0b010 => Some(Instr::Load(LoadOperation::Lw, register, base, word_offset(halfword))),
        0b110 => Some(Instr::Store(StoreOperation::Sw, register, base, word_offset(halfword))),
        _ => None,
    }
}

// C.ADDI4SPN.
#[tactic(auto, unfolding(crate::specs::private::Halfwords::stack_address_at))]
fn stack_address(halfword: u32) -> Option<Instr>
    ensures { result ≡ expanded (stack_address_at halfword) }
{
    let immediate = stack_address_immediate(halfword);
    if immediate.field() == 0 {
        None
    } else {
        Some(add(short_rs2(halfword), Reg::X2, immediate))
    }
}

// C.ADDI, C.JAL, C.LI, C.LUI, C.ADDI16SP, arithmetic, C.J, C.BEQZ and C.BNEZ.
#[tactic(auto, unfolding(crate::specs::private::Halfwords::quadrant_1_at))]
fn quadrant_1(halfword: u32) -> Option<Instr>
    ensures { result ≡ expanded (quadrant_1_at halfword) }
{
    let (register, immediate) = (rd(halfword), small_immediate(halfword));
    match funct3(halfword) {
        0b000 => Some(add(register, register, immediate)),
        0b001 => Some(Instr::Jump(Reg::X1, jump_offset(halfword))),
        0b010 => Some(add(register, Reg::X0, immediate)),
        0b011 => upper(halfword),
        0b100 => arithmetic(halfword),
        0b101 => Some(Instr::Jump(Reg::X0, jump_offset(halfword))),
        0b110 => Some(branch_on_zero(BranchTest::Beq, halfword)),
        0b111 => Some(branch_on_zero(BranchTest::Bne, halfword)),
        _ => None,
    }
}

// C.LUI, and C.ADDI16SP in the place of that of sp.
#[tactic(auto, unfolding(crate::specs::private::Halfwords::upper_at))]
fn upper(halfword: u32) -> Option<Instr>
    ensures { result ≡ expanded (upper_at halfword) }
{
    let register = rd(halfword);
    if register == Reg::X2 {
        return stack_change(halfword);
    }
    if small_field(halfword) == 0 {
        None
    } else {
        Some(Instr::Upper(UpperOperation::Lui, register, upper_immediate(halfword)))
    }
}

// C.ADDI16SP.
#[tactic(auto, unfolding(crate::specs::private::Halfwords::stack_change_at))]
fn stack_change(halfword: u32) -> Option<Instr>
    ensures { result ≡ expanded (stack_change_at halfword) }
{
    if stack_change_field(halfword) == 0 {
        None
    } else {
        Some(add(Reg::X2, Reg::X2, stack_change_immediate(halfword)))
    }
}

// C.SRLI, C.SRAI, C.ANDI, and the rows of two registers.
#[tactic(auto, unfolding(crate::specs::private::Halfwords::arithmetic_at))]
fn arithmetic(halfword: u32) -> Option<Instr>
    ensures { result ≡ expanded (arithmetic_at halfword) }
{
    let (register, immediate) = (short_rs1(halfword), small_immediate(halfword));
    match funct2(halfword) {
        0b00 => shift(ShiftOperation::Srli, register, halfword),
        0b01 => shift(ShiftOperation::Srai, register, halfword),
        0b10 => Some(Instr::Immediate(ImmediateOperation::Andi, register, register, immediate)),
        _ => two_registers(halfword),
    }
}

// C.SUB, C.XOR, C.OR and C.AND. With bit 12 they are of wider registers.
#[tactic(auto, unfolding(crate::specs::private::Halfwords::two_registers_at))]
fn two_registers(halfword: u32) -> Option<Instr>
    ensures { result ≡ expanded (two_registers_at halfword) }
{
    if bit_12(halfword) == 1 {
        return None;
    }
    let operation = match low_funct2(halfword) {
        0b00 => RegisterOperation::Sub,
        0b01 => RegisterOperation::Xor,
        0b10 => RegisterOperation::Or,
        _ => RegisterOperation::And,
    };
    let register = short_rs1(halfword);
    Some(Instr::Register(operation, register, register, short_rs2(halfword)))
}

// C.SLLI, C.LWSP, C.JR, C.MV, C.JALR, C.ADD, C.EBREAK and C.SWSP.
#[tactic(auto, unfolding(crate::specs::private::Halfwords::quadrant_2_at))]
fn quadrant_2(halfword: u32) -> Option<Instr>
    ensures { result ≡ expanded (quadrant_2_at halfword) }
{
    match funct3(halfword) {
        0b000 => shift(ShiftOperation::Slli, rd(halfword), halfword),
        0b010 => stack_load(halfword),
        0b100 if bit_12(halfword) == 0 => move_or_jump(halfword),
        0b100 => add_or_call(halfword),
        0b110 => {
            let offset = stack_store_offset(halfword);
            Some(Instr::Store(StoreOperation::Sw, rs2(halfword), Reg::X2, offset))
        }
        _ => None,
    }
}

// C.LWSP.
#[tactic(auto, unfolding(crate::specs::private::Halfwords::stack_load_at))]
fn stack_load(halfword: u32) -> Option<Instr>
    ensures { result ≡ expanded (stack_load_at halfword) }
{
    let register = rd(halfword);
    if register == Reg::X0 {
        None
    } else {
        let offset = stack_load_offset(halfword);
        Some(Instr::Load(LoadOperation::Lw, register, Reg::X2, offset))
    }
}

// C.MV, and C.JR in the place of those from x0.
#[tactic(auto, unfolding(crate::specs::private::Halfwords::move_or_jump_at))]
fn move_or_jump(halfword: u32) -> Option<Instr>
    ensures { result ≡ expanded (move_or_jump_at halfword) }
{
    let (register, source) = (rd(halfword), rs2(halfword));
    if source != Reg::X0 {
        Some(Instr::Register(RegisterOperation::Add, register, Reg::X0, source))
    } else if register == Reg::X0 {
        None
    } else {
        Some(Instr::JumpRegister(Reg::X0, register, Immediate12::from_bits(0)))
    }
}

// C.ADD, and in the place of those of x0 C.JALR and C.EBREAK.
#[tactic(auto, unfolding(crate::specs::private::Halfwords::add_or_call_at))]
fn add_or_call(halfword: u32) -> Option<Instr>
    ensures { result ≡ expanded (add_or_call_at halfword) }
{
    let (register, source) = (rd(halfword), rs2(halfword));
    Some(if source != Reg::X0 {
        Instr::Register(RegisterOperation::Add, register, register, source)
    } else if register == Reg::X0 {
        Instr::Ebreak
    } else {
        Instr::JumpRegister(Reg::X1, register, Immediate12::from_bits(0))
    })
}

fn add(rd: Reg, rs1: Reg, immediate: Immediate12) -> Instr
    ensures { result ≡ Instr.Immediate ImmediateOperation.Addi rd rs1 immediate }
{
    Instr::Immediate(ImmediateOperation::Addi, rd, rs1, immediate)
}

// C.BEQZ and C.BNEZ.
fn branch_on_zero(test: BranchTest, halfword: u32) -> Instr
    ensures { let offset = branch_offset_of 9 (branch_offset_at halfword) in
        result ≡ Instr.Branch test (short_register (short_rs1_at halfword)) 0 offset }
{
    Instr::Branch(test, short_rs1(halfword), Reg::X0, branch_offset(halfword))
}

// C.SLLI, C.SRLI and C.SRAI. Bit 12 is a sixth bit of the amount, which only wider registers have.
fn shift(operation: ShiftOperation, register: Reg, halfword: u32) -> Option<Instr>
    ensures wide { bit_12_at halfword ≡ 1 → result ≡ None }
    ensures narrow { let amount = rs2_at halfword in
        bit_12_at halfword ≢ 1 → result ≡ Some (Instr.Shift operation register register amount) }
{
    if bit_12(halfword) == 1 {
        None
    } else {
        Some(Instr::Shift(operation, register, register, shift_amount(halfword)))
    }
}
