// A hart: the program counter and the registers.

ghost use Rattle.std.specs.Prelude.{◌≡◌, ◌+◌, ◌%◌, ◌^◌, slice_index};

use crate::memory::Size;
use rv_code::Reg;
use std::marker::Model;
use word::Width;

/// A program counter and 32 registers, of which x0 holds 0.
#[derive(Drop)]
pub struct Hart {
    pc: u32,
    registers: [u32; 32],
}

impl Model for Hart {
    ghost use Rattle.std.specs.Prelude.{◌≡◌, slice_index};
    ghost use Rattle.rv_machine.specs.Registers.{HartState};

    ghost Value = { HartState };

    ghost view = { λ hart. record { pc = hart.pc; registers = hart.registers } };

    ghost invariant = { λ hart. slice_index hart.registers 0 ≡ 0 };
}

impl Hart {
    ghost use Rattle.rv_machine.specs.Harts.{pc_of, regs_of};
    ghost use Rattle.rv_machine.specs.Registers.{register, with_register, initial_registers};
    ghost use Rattle.rv_machine.specs.Sizes.{byte_count};

    /// A hart at this program counter, with this number in x2 and 0 in the other registers.
    pub fn new(pc: u32, x2: u32) -> Hart
        ensures pc { pc_of result ≡ pc }
        ensures registers { regs_of result ≡ initial_registers x2 }
    {
        let mut registers = [0; 32];
        registers[2] = x2;
        Hart { pc, registers }
    }

    /// A hart at this program counter, whose registers read as these, but that x0 reads as 0.
    pub fn with_registers(pc: u32, registers: [u32; 32]) -> Hart
        ensures pc { pc_of result ≡ pc }
        ensures registers { regs_of result ≡ register (slice_index registers) }
    {
        let mut registers = registers;
        registers[0] = 0;
        Hart { pc, registers }
    }

    /// The program counter.
    pub fn pc(&self) -> u32
        ensures { result ≡ pc_of self.now }
    {
        self.pc
    }

    /// What a register reads as. x0 reads as 0.
    pub fn reg(&self, r: Reg) -> u32
        ensures { result ≡ register (regs_of self.now) r }
    {
        self.registers[r.number() as usize]
    }

    // Writes a register.
    pub(crate) fn set(&mut self, rd: Reg, value: u32)
        ensures pc { pc_of self.new ≡ pc_of self.old }
        ensures registers { regs_of self.new ≡ with_register (regs_of self.old) rd value }
    {
        if rd != Reg::X0 {
            self.registers[rd.number() as usize] = value;
        }
    }

    // Goes on to the address behind an instruction of this length.
    #[inline(always)]
    pub(crate) fn advance(&mut self, length: Size)
        ensures pc { pc_of self.new ≡ (pc_of self.old + byte_count length) % 2 ^ 32 }
        ensures registers { regs_of self.new ≡ regs_of self.old }
    {
        self.pc = self.next(length);
    }

    // Goes on to this address.
    pub(crate) fn go_to(&mut self, target: u32)
        ensures pc { pc_of self.new ≡ target }
        ensures registers { regs_of self.new ≡ regs_of self.old }
    {
        self.pc = target;
    }

    // The address behind an instruction of this length.
    #[inline(always)]
    pub(crate) fn next(&self, length: Size) -> u32
        ensures { result ≡ (pc_of self.now + byte_count length) % 2 ^ 32 }
    {
        word::add(Width::W32, self.pc, length.bytes())
    }
}
