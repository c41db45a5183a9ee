// The fields of a word.

ghost use Rattle.std.specs.Prelude.{◌≡◌};
ghost use Rattle.rv_code.specs.private.Reading.{rd_at, funct3_at, rs1_at, rs2_at, funct7_at, i_immediate_at};
ghost use Rattle.rv_code.specs.private.Reading.{s_immediate_at, b_offset_at, u_immediate_at, j_offset_at, mode_at};
ghost use Rattle.rv_code.specs.private.Reading.{before_at, after_at};

use crate::{BranchOffset, FenceBits, Immediate12, JumpOffset, Reg, ShiftAmount, UpperImmediate};

pub(crate) fn rd(word: u32) -> Reg
    ensures { result ≡ rd_at word }
{
    Reg::from_bits(word >> 7)
}

pub(crate) fn funct3(word: u32) -> u32
    ensures { result ≡ funct3_at word }
{
    (word >> 12) % 8
}

pub(crate) fn rs1(word: u32) -> Reg
    ensures { result ≡ rs1_at word }
{
    Reg::from_bits(word >> 15)
}

pub(crate) fn rs2(word: u32) -> Reg
    ensures { result ≡ rs2_at word }
{
    Reg::from_bits(word >> 20)
}

pub(crate) fn funct7(word: u32) -> u32
    ensures { result ≡ funct7_at word }
{
    (word >> 25) % 128
}

pub(crate) fn i_immediate(word: u32) -> Immediate12
    ensures { result ≡ i_immediate_at word }
{
    Immediate12::from_bits(word >> 20)
}

pub(crate) fn s_immediate(word: u32) -> Immediate12
    ensures { result ≡ s_immediate_at word }
{
    Immediate12::from_bits((word >> 7) % 32 + funct7(word) * 32)
}

pub(crate) fn b_offset(word: u32) -> BranchOffset
    ensures { result ≡ b_offset_at word }
{
    let low = (word >> 8) % 16 + (word >> 25) % 64 * 16;
    BranchOffset::from_halves(low + (word >> 7) % 2 * 1024 + (word >> 31) * 2048)
}

pub(crate) fn u_immediate(word: u32) -> UpperImmediate
    ensures { result ≡ u_immediate_at word }
{
    UpperImmediate::from_bits(word >> 12)
}

pub(crate) fn j_offset(word: u32) -> JumpOffset
    ensures { result ≡ j_offset_at word }
{
    let low = (word >> 21) % 1024 + (word >> 20) % 2 * 1024;
    JumpOffset::from_halves(low + (word >> 12) % 256 * 2048 + (word >> 31) * 524_288)
}

pub(crate) fn shift_amount(word: u32) -> ShiftAmount
    ensures { result ≡ rs2_at word }
{
    ShiftAmount::from_bits(word >> 20)
}

pub(crate) fn fence_mode(word: u32) -> FenceBits
    ensures { result ≡ mode_at word }
{
    FenceBits::from_bits(word >> 28)
}

pub(crate) fn fence_before(word: u32) -> FenceBits
    ensures { result ≡ before_at word }
{
    FenceBits::from_bits(word >> 24)
}

pub(crate) fn fence_after(word: u32) -> FenceBits
    ensures { result ≡ after_at word }
{
    FenceBits::from_bits(word >> 20)
}
