// The fields of a halfword, and its immediates.

ghost use Rattle.std.specs.Prelude.{◌≡◌, ◌^◌, ◌<◌};
ghost use Rattle.rv_code.specs.Compressed.{short_register, immediate_of, upper_immediate_of, jump_offset_of};
ghost use Rattle.rv_code.specs.Compressed.{branch_offset_of};
ghost use Rattle.rv_code.specs.private.Halfwords.{funct3_at, rd_at, rs2_at, short_rs1_at, short_rs2_at, bit_12_at};
ghost use Rattle.rv_code.specs.private.Halfwords.{funct2_at, low_funct2_at, stack_address_immediate_at};
ghost use Rattle.rv_code.specs.private.Halfwords.{word_offset_at, stack_load_offset_at, stack_store_offset_at};
ghost use Rattle.rv_code.specs.private.Halfwords.{small_immediate_at, upper_immediate_at, stack_change_immediate_at};
ghost use Rattle.rv_code.specs.private.Halfwords.{jump_offset_at, branch_offset_at};

use crate::{BranchOffset, Immediate12, JumpOffset, Reg, ShiftAmount, UpperImmediate, signed};

pub(super) fn funct3(halfword: u32) -> u32
    ensures { result ≡ funct3_at halfword }
{
    halfword >> 13
}

pub(super) fn rd(halfword: u32) -> Reg
    ensures { result ≡ rd_at halfword }
{
    Reg::from_bits(halfword >> 7)
}

pub(super) fn rs2(halfword: u32) -> Reg
    ensures { result ≡ rs2_at halfword }
{
    Reg::from_bits(halfword >> 2)
}

pub(super) fn short_rs1(halfword: u32) -> Reg
    ensures { result ≡ short_register (short_rs1_at halfword) }
{
    Reg::from_bits(8 + (halfword >> 7) % 8)
}

/// The register of three bits that is rs2 or rd.
pub(super) fn short_rs2(halfword: u32) -> Reg
    ensures { result ≡ short_register (short_rs2_at halfword) }
{
    Reg::from_bits(8 + (halfword >> 2) % 8)
}

/// The highest bit of an immediate, or the lowest of funct4.
pub(super) fn bit_12(halfword: u32) -> u32
    ensures { result ≡ bit_12_at halfword }
{
    (halfword >> 12) % 2
}

/// The field below bit 12.
pub(super) fn funct2(halfword: u32) -> u32
    ensures { result ≡ funct2_at halfword }
{
    (halfword >> 10) % 4
}

/// The field between two registers of three bits.
pub(super) fn low_funct2(halfword: u32) -> u32
    ensures { result ≡ low_funct2_at halfword }
{
    (halfword >> 5) % 4
}

pub(super) fn shift_amount(halfword: u32) -> ShiftAmount
    ensures { result ≡ rs2_at halfword }
{
    ShiftAmount::from_bits(halfword >> 2)
}

/// The immediate of C.ADDI4SPN.
pub(super) fn stack_address_immediate(halfword: u32) -> Immediate12
    ensures { result ≡ stack_address_immediate_at halfword }
{
    let low = (halfword >> 6) % 2 * 4 + (halfword >> 5) % 2 * 8;
    Immediate12::from_bits(low + (halfword >> 11) % 4 * 16 + (halfword >> 7) % 16 * 64)
}

/// The offset of C.LW and C.SW.
pub(super) fn word_offset(halfword: u32) -> Immediate12
    ensures { result ≡ word_offset_at halfword }
{
    let low = (halfword >> 6) % 2 * 4 + (halfword >> 10) % 8 * 8;
    Immediate12::from_bits(low + (halfword >> 5) % 2 * 64)
}

/// The offset of C.LWSP.
pub(super) fn stack_load_offset(halfword: u32) -> Immediate12
    ensures { result ≡ stack_load_offset_at halfword }
{
    let low = (halfword >> 4) % 8 * 4 + bit_12(halfword) * 32;
    Immediate12::from_bits(low + (halfword >> 2) % 4 * 64)
}

/// The offset of C.SWSP.
pub(super) fn stack_store_offset(halfword: u32) -> Immediate12
    ensures { result ≡ stack_store_offset_at halfword }
{
    Immediate12::from_bits((halfword >> 9) % 16 * 4 + (halfword >> 7) % 4 * 64)
}

/// The field of the six bits that C.ADDI, C.LI, C.LUI and C.ANDI have.
pub(super) fn small_field(halfword: u32) -> u32
    ensures value { result ≡ small_immediate_at halfword }
    ensures below_64 { result < 2 ^ 6 }
{
    (halfword >> 2) % 32 + bit_12(halfword) * 32
}

/// The immediate of C.ADDI, C.LI and C.ANDI.
pub(super) fn small_immediate(halfword: u32) -> Immediate12
    ensures { result ≡ immediate_of 6 (small_immediate_at halfword) }
{
    Immediate12::from_bits(signed::extend(small_field(halfword), 0x20))
}

/// The immediate of C.LUI.
pub(super) fn upper_immediate(halfword: u32) -> UpperImmediate
    ensures { result ≡ upper_immediate_of 18 (upper_immediate_at halfword) }
{
    UpperImmediate::from_bits(signed::extend(small_field(halfword) * 4096, 0x2_0000) / 4096)
}

/// The field of the immediate of C.ADDI16SP.
pub(super) fn stack_change_field(halfword: u32) -> u32
    ensures value { result ≡ stack_change_immediate_at halfword }
    ensures below_1024 { result < 2 ^ 10 }
{
    let low = (halfword >> 6) % 2 * 16 + (halfword >> 2) % 2 * 32 + (halfword >> 5) % 2 * 64;
    low + (halfword >> 3) % 4 * 128 + bit_12(halfword) * 512
}

/// The immediate of C.ADDI16SP.
pub(super) fn stack_change_immediate(halfword: u32) -> Immediate12
    ensures { result ≡ immediate_of 10 (stack_change_immediate_at halfword) }
{
    Immediate12::from_bits(signed::extend(stack_change_field(halfword), 0x200))
}

/// The offset of C.J and C.JAL.
pub(super) fn jump_offset(halfword: u32) -> JumpOffset
    ensures { result ≡ jump_offset_of 12 (jump_offset_at halfword) }
{
    JumpOffset::from_halves(signed::extend(jump_field(halfword), 0x800) / 2)
}

fn jump_field(halfword: u32) -> u32
    ensures value { result ≡ jump_offset_at halfword }
    ensures below_4096 { result < 2 ^ 12 }
{
    let low = (halfword >> 3) % 8 * 2 + (halfword >> 11) % 2 * 16 + (halfword >> 2) % 2 * 32;
    let middle = (halfword >> 7) % 2 * 64 + (halfword >> 6) % 2 * 128;
    let high = (halfword >> 9) % 4 * 256 + (halfword >> 8) % 2 * 1024;
    low + middle + high + bit_12(halfword) * 2048
}

/// The offset of C.BEQZ and C.BNEZ.
pub(super) fn branch_offset(halfword: u32) -> BranchOffset
    ensures { result ≡ branch_offset_of 9 (branch_offset_at halfword) }
{
    BranchOffset::from_halves(signed::extend(branch_field(halfword), 0x100) / 2)
}

fn branch_field(halfword: u32) -> u32
    ensures value { result ≡ branch_offset_at halfword }
    ensures below_512 { result < 2 ^ 9 }
{
    let low = (halfword >> 3) % 4 * 2 + (halfword >> 10) % 4 * 8 + (halfword >> 2) % 2 * 32;
    low + (halfword >> 5) % 4 * 64 + bit_12(halfword) * 256
}
