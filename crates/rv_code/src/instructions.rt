// Instructions, grouped by what their words have in common.
//
// The parts of a variant stand in the order of the assembly text.

use crate::operations::{
    BranchTest, DivideOperation, ImmediateOperation, LoadOperation, MultiplyOperation,
    RegisterOperation, ShiftOperation, StoreOperation, UpperOperation,
};
use crate::{BranchOffset, FenceBits, Immediate12, JumpOffset, Reg, ShiftAmount, UpperImmediate};

/// An instruction.
#[derive(Clone, Copy)]
pub enum Instr {
    /// rd gets a value made of the upper immediate.
    Upper(UpperOperation, Reg, UpperImmediate),
    /// rd gets the next address, and the program counter goes by the offset.
    Jump(Reg, JumpOffset),
    /// rd gets the next address, and the program counter goes to rs1 plus the offset.
    JumpRegister(Reg, Reg, Immediate12),
    /// The program counter goes by the offset where the test holds of rs1 and rs2.
    Branch(BranchTest, Reg, Reg, BranchOffset),
    /// rd gets what memory holds at rs1 plus the offset.
    Load(LoadOperation, Reg, Reg, Immediate12),
    /// Memory at rs1 plus the offset gets the first register, rs2.
    Store(StoreOperation, Reg, Reg, Immediate12),
    /// rd gets the operation's value at rs1 and the immediate.
    Immediate(ImmediateOperation, Reg, Reg, Immediate12),
    /// rd gets rs1 shifted by the amount.
    Shift(ShiftOperation, Reg, Reg, ShiftAmount),
    /// rd gets the operation's value at rs1 and rs2.
    Register(RegisterOperation, Reg, Reg, Reg),
    /// rd gets a half of the product of rs1 and rs2.
    Multiply(MultiplyOperation, Reg, Reg, Reg),
    /// rd gets the quotient or the remainder of rs1 by rs2.
    Divide(DivideOperation, Reg, Reg, Reg),
    /// Accesses before are done before those after: the mode, the kinds before, the kinds after,
    /// and rs1 and rd, which mean nothing.
    Fence(FenceBits, FenceBits, FenceBits, Reg, Reg),
    /// A call of the environment.
    Ecall,
    /// A call of the debugger.
    Ebreak,
}
