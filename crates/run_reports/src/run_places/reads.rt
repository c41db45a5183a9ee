// The registers that an instruction reads, and what they hold.

ghost use Rattle.std.specs.Prelude.{◌≡◌, ◌++◌, ◌∷◌, [], IfOk, OnOk};
ghost use Rattle.rv_machine.specs.Bytes.{ByteMap};
ghost use Rattle.run_reports.specs.Below.{code_of, regs_of, state_of};
ghost use Rattle.run_reports.specs.run_places.Reads.{registers_read, register_text, registers_text, SaysRegisters};

use rv_code::{Instr, Reg};
use rv_machine::{CodeRegion, Hart};
use std::alloc::{AllocError, Global};

/// Puts a register and what it holds at the end.
fn push_register(
    alloc: Global,
    text: &mut Vec<u8>,
    hart: &Hart,
    register: Reg,
) -> Result<(), AllocError>
    ensures { OnOk result (text.new.items ≡ text.old.items ++ register_text (regs_of hart.now) register) }
{
    let number = register.number();
    let value = hart.reg(register);
    let said = format!(in alloc; " x{number} {value:08x}")?;
    text.extend_from_slice(said.as_bytes())
}

/// Puts registers and what they hold at the end.
fn push_registers(
    alloc: Global,
    text: &mut Vec<u8>,
    hart: &Hart,
    registers: &[Reg],
) -> Result<(), AllocError>
    ensures { OnOk result (text.new.items ≡ text.old.items ++ registers_text (regs_of hart.now) registers.now) }
{
    for register in registers {
        push_register(alloc, text, hart, *register)?;
    }
    Ok(())
}

/// Puts the registers that an instruction reads, and what they hold, at the end.
fn push_read(
    alloc: Global,
    text: &mut Vec<u8>,
    hart: &Hart,
    instr: &Instr,
) -> Result<(), AllocError>
    ensures { OnOk result (text.new.items
        ≡ text.old.items ++ registers_text (regs_of hart.now) (registers_read instr.now)) }
{
    match *instr {
        Instr::Upper(_, _, _) | Instr::Jump(_, _) => Ok(()),
        Instr::JumpRegister(_, rs1, _) => push_registers(alloc, text, hart, &[rs1]),
        Instr::Branch(_, rs1, rs2, _) => push_registers(alloc, text, hart, &[rs1, rs2]),
        Instr::Load(_, _, rs1, _) => push_registers(alloc, text, hart, &[rs1]),
        Instr::Store(_, rs2, rs1, _) => push_registers(alloc, text, hart, &[rs2, rs1]),
        Instr::Immediate(_, _, rs1, _) => push_registers(alloc, text, hart, &[rs1]),
        Instr::Shift(_, _, rs1, _) => push_registers(alloc, text, hart, &[rs1]),
        Instr::Register(_, _, rs1, rs2) => push_registers(alloc, text, hart, &[rs1, rs2]),
        Instr::Multiply(_, _, rs1, rs2) => push_registers(alloc, text, hart, &[rs1, rs2]),
        Instr::Divide(_, _, rs1, rs2) => push_registers(alloc, text, hart, &[rs1, rs2]),
        Instr::Fence(_, _, _, _, _) | Instr::Ecall | Instr::Ebreak => Ok(()),
    }
}

/// The registers that the instruction at a hart's program counter reads, each behind a blank and with what it holds;
/// nothing where no instruction stands there.
pub fn registers_at(alloc: Global, code: &CodeRegion, hart: &Hart) -> Result<Vec<u8>, AllocError>
    ensures { IfOk result (λ text. (bytes : ByteMap)
        → SaysRegisters (code_of code.now) (state_of hart.now bytes) text.items) }
{
    let mut text = Vec::new(alloc);
    match code.instruction_at(hart.pc()) {
        Some(instr) => {
            push_read(alloc, &mut text, hart, instr)?;
            Ok(text)
        }
        None => Ok(text),
    }
}
