// Where words are, and how they come into registers and out of them.

ghost use Rattle.std.specs.Prelude.{◌≡◌, ◌++◌, OnOk};
ghost use Rattle.expression_code.specs.Allocation.{register_of, at_home};
ghost use Rattle.expression_code.specs.TermCode.{move_code, copy_code, fetch_code, keep_code};

use crate::emit;
use rv_code::{Immediate12, ImmediateOperation, Instr, Reg};
use std::alloc::AllocError;

/// Where an operand is fetched that lies in a slot: the first of an operator's, the second and the third.
pub const FIRST_SPARE: Reg = Reg::X29;

pub const SECOND_SPARE: Reg = Reg::X30;

pub const THIRD_SPARE: Reg = Reg::X31;

/// Where a word is: in a register, or in a slot at an offset of the frame.
#[derive(Clone, Copy)]
pub enum Location {
    InRegister(Reg),
    InSlot(u32),
}

impl Location {
    /// The register that an operator finds the word in: its own, or the spare one where it has none.
    pub fn register(&self, spare: Reg) -> Reg
        ensures { result ≡ register_of self.now spare }
    {
        match self {
            Location::InRegister(register) => *register,
            Location::InSlot(_) => spare,
        }
    }

    /// A home, where there is one, and else this.
    pub fn unless_home(self, home: Option<Reg>) -> Location
        ensures { result ≡ at_home home self }
    {
        match home {
            Some(register) => Location::InRegister(register),
            None => self,
        }
    }
}

/// A register into another.
pub fn move_register(code: &mut Vec<Instr>, d: Reg, r: Reg) -> Result<(), AllocError>
    ensures { OnOk result (code.new.items ≡ code.old.items ++ move_code d r) }
{
    if d == r {
        return Ok(());
    }
    let none = Immediate12::from_bits(0);
    emit::append(code, Instr::Immediate(ImmediateOperation::Addi, d, r, none))
}

/// A word into a register.
pub fn copy(code: &mut Vec<Instr>, d: Reg, location: &Location) -> Result<(), AllocError>
    ensures { OnOk result (code.new.items ≡ code.old.items ++ copy_code d location.now) }
{
    match location {
        Location::InRegister(register) => move_register(code, d, *register),
        Location::InSlot(offset) => emit::load(code, d, *offset),
    }
}

/// A word that lies in a slot into a spare register.
pub fn fetch(code: &mut Vec<Instr>, location: &Location, spare: Reg) -> Result<(), AllocError>
    ensures { OnOk result (code.new.items ≡ code.old.items ++ fetch_code location.now spare) }
{
    match location {
        Location::InRegister(_) => Ok(()),
        Location::InSlot(offset) => emit::load(code, spare, *offset),
    }
}

/// What is in the register of a location, kept there.
pub fn keep(code: &mut Vec<Instr>, location: &Location) -> Result<(), AllocError>
    ensures { OnOk result (code.new.items ≡ code.old.items ++ keep_code location.now) }
{
    match location {
        Location::InRegister(_) => Ok(()),
        Location::InSlot(offset) => emit::store(code, FIRST_SPARE, *offset),
    }
}
