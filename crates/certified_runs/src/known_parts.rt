// What is known of the state of a run.

ghost use Rattle.std.specs.Prelude.{◌≡◌, ℕ, false, is_some, IsTrue, ◌==◌};
ghost use Rattle.certified_runs.specs.Below.{byte_count, ByteMap, number_at, state_of, with_number};
ghost use Rattle.certified_runs.specs.Known.{number_unknown, part, unknown, with_register_unknown};
ghost use Rattle.certified_runs.specs.Parts.{known_of, no_masks, register_masks};

use crate::bits::PartialWord;
use crate::shifts::Shifts;
use rv_code::Reg;
use rv_machine::{Hart, Memory, Size};

/// Which bits of the registers and of the bytes of a run are unknown. What the run holds there does not matter.
#[derive(Drop)]
pub struct KnownParts<M> {
    /// The unknown bits of each register. x0 has none, whatever stands here.
    pub registers: [u32; 32],
    /// A memory with the addresses of the run's data, whose byte at each is the unknown bits of the run's byte there.
    pub marks: M,
    /// Whether the observer sees the amounts of shifts by registers.
    pub shifts: Shifts,
}

impl<M: Memory> KnownParts<M> {
    /// All of the registers, and of the bytes what these marks say, for an observer who sees shifts or not.
    pub fn new(marks: M, shifts: Shifts) -> KnownParts<M>
        ensures registers { register_masks result.registers ≡ no_masks }
        ensures marks { result.marks ≡ marks }
        ensures shifts { result.shifts ≡ shifts }
    {
        KnownParts {
            registers: [0; 32],
            marks,
            shifts,
        }
    }

    // The unknown bits of a register.
    #[inline(always)]
    pub(crate) fn unknown(&self, r: Reg) -> u32
        ensures { result ≡ unknown (register_masks self.now.registers) r }
    {
        if r == Reg::X0 {
            0
        } else {
            self.registers[r.number() as usize]
        }
    }

    // What is known of a register of this hart.
    #[inline(always)]
    pub(crate) fn part(&self, hart: &Hart, r: Reg) -> PartialWord
        ensures { (bytes : ByteMap) → result
            ≡ part (known_of (state_of hart.now bytes) self.now.registers (M.bytes self.now.marks) self.now.shifts) r }
    {
        PartialWord::new(hart.reg(r), self.unknown(r))
    }

    // Whether all of a register is known.
    #[inline(always)]
    pub(crate) fn knows(&self, r: Reg) -> bool
        ensures { result ≡ (unknown (register_masks self.now.registers) r == 0) }
    {
        self.unknown(r) == 0
    }

    // The unknown bits of the number that so many bytes from this address on are.
    #[inline(always)]
    pub(crate) fn number_unknown(&self, a: u32, n: Size) -> u32
        ensures { result ≡ number_unknown (number_at (M.bytes self.now.marks) (byte_count n) a) }
    {
        match self.marks.load(a, n) {
            Some(mask) => mask,
            None => u32::MAX,
        }
    }

    // Makes these the unknown bits of a register.
    #[inline(always)]
    pub(crate) fn set_register(&mut self, rd: Reg, mask: u32)
        ensures registers { register_masks self.new.registers
            ≡ with_register_unknown (register_masks self.old.registers) rd mask }
        ensures marks { self.new.marks ≡ self.old.marks }
        ensures shifts { self.new.shifts ≡ self.old.shifts }
    {
        self.registers[rd.number() as usize] = mask;
    }

    /// Makes the low bits of a mask the unknown ones of so many bytes from this address on; answers false, and changes
    /// nothing, where one of them is no data.
    #[inline(always)]
    pub fn set_bytes(&mut self, a: u32, n: Size, mask: u32) -> bool
        ensures answer { result ≡ is_some (number_at (M.bytes self.old.marks) (byte_count n) a) }
        ensures set { IsTrue result
            → M.bytes self.new.marks ≡ with_number (M.bytes self.old.marks) (byte_count n) a mask }
        ensures unchanged { result ≡ false → M.bytes self.new.marks ≡ M.bytes self.old.marks }
        ensures extent { (x : ℕ) → is_some (M.bytes self.new.marks x) ≡ is_some (M.bytes self.old.marks x) }
        ensures registers { self.new.registers ≡ self.old.registers }
        ensures shifts { self.new.shifts ≡ self.old.shifts }
    {
        self.marks.store(a, n, mask)
    }
}
