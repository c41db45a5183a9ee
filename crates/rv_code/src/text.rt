// Instructions as assembly text.

ghost use Rattle.std.specs.Prelude.{Some, IfSome};
ghost use Rattle.std.specs.Fmt.{WritesOnOk};
ghost use Rattle.rv_code.specs.FieldText.{reg_text};
ghost use Rattle.rv_code.specs.Text.{address_text, text_of, three_operands, two_operands};
ghost use Rattle.rv_code.specs.declared.instructions.Instr.TheVariants.{Fence};

use crate::instructions::Instr;
use crate::{FenceBits, Immediate12, Reg};
use std::fmt;

impl fmt::Display for Instr {
    ghost output = { λ instruction. Some (text_of instruction) };

    fn fmt<W: fmt::Write>(&self, f: &mut fmt::Formatter<W>) -> fmt::Result {
        match *self {
            Instr::Upper(operation, rd, value) => two(f, operation.row().mnemonic, rd, value),
            Instr::Jump(rd, offset) => two(f, "jal", rd, offset),
            Instr::JumpRegister(rd, rs1, offset) => at_address(f, "jalr", rd, offset, rs1),
            Instr::Branch(test, rs1, rs2, offset) => {
                three(f, test.row().mnemonic, rs1, rs2, offset)
            }
            Instr::Load(operation, rd, rs1, offset) => {
                at_address(f, operation.row().mnemonic, rd, offset, rs1)
            }
            Instr::Store(operation, rs2, rs1, offset) => {
                at_address(f, operation.row().mnemonic, rs2, offset, rs1)
            }
            Instr::Immediate(operation, rd, rs1, value) => {
                three(f, operation.row().mnemonic, rd, rs1, value)
            }
            Instr::Shift(operation, rd, rs1, amount) => {
                three(f, operation.row().mnemonic, rd, rs1, amount)
            }
            Instr::Register(operation, rd, rs1, rs2) => {
                three(f, operation.row().mnemonic, rd, rs1, rs2)
            }
            Instr::Multiply(operation, rd, rs1, rs2) => {
                three(f, operation.row().mnemonic, rd, rs1, rs2)
            }
            Instr::Divide(operation, rd, rs1, rs2) => {
                three(f, operation.row().mnemonic, rd, rs1, rs2)
            }
            Instr::Fence(mode, before, after, rs1, rd) => fence(f, (mode, before, after), rs1, rd),
            Instr::Ecall => f.write_str("ecall"),
            Instr::Ebreak => f.write_str("ebreak"),
        }
    }
}

/// A mnemonic, a register, and another operand.
fn two<W: fmt::Write, T: fmt::Display + Drop>(
    f: &mut fmt::Formatter<W>,
    mnemonic: &str,
    register: Reg,
    operand: T,
) -> fmt::Result
    ensures { IfSome (T.output operand) (λ text.
        WritesOnOk W.write_str_gives f.old result (two_operands mnemonic.now (reg_text register) text) f.new) }
{
    write!(f, "{mnemonic} {register}, {operand}")
}

/// A mnemonic, two registers, and a third operand.
fn three<W: fmt::Write, T: fmt::Display + Drop>(
    f: &mut fmt::Formatter<W>,
    mnemonic: &str,
    first: Reg,
    second: Reg,
    third: T,
) -> fmt::Result
    ensures { IfSome (T.output third) (λ text.
        WritesOnOk W.write_str_gives f.old result (three_operands mnemonic.now (reg_text first) (reg_text second) text)
        f.new) }
{
    write!(f, "{mnemonic} {first}, {second}, {third}")
}

/// A mnemonic, a register, and the address of an offset from another one.
fn at_address<W: fmt::Write>(
    f: &mut fmt::Formatter<W>,
    mnemonic: &str,
    register: Reg,
    offset: Immediate12,
    base: Reg,
) -> fmt::Result
    ensures { WritesOnOk W.write_str_gives f.old result
        (two_operands mnemonic.now (reg_text register) (address_text offset base)) f.new }
{
    write!(f, "{mnemonic} {register}, {offset}({base})")
}

/// A fence: its mode, and the kinds of accesses before and after it.
fn fence<W: fmt::Write>(
    f: &mut fmt::Formatter<W>,
    kinds: (FenceBits, FenceBits, FenceBits),
    rs1: Reg,
    rd: Reg,
) -> fmt::Result
    ensures { WritesOnOk W.write_str_gives f.old result (text_of (Fence kinds.0 kinds.1 kinds.2 rs1 rd)) f.new }
{
    let (mode, before, after) = kinds;
    write!(f, "fence {mode}, {before}, {after}, {rs1}, {rd}")
}
