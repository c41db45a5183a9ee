ghost use Rattle.std.specs.Prelude.{◌≡◌};
ghost use Rattle.elf.specs.RuleNames.{code_of, name_of};

use std::alloc::{AllocError, AllocFailed};
use std::error::Error;
use std::fmt;

/// What is wrong with bytes that spell no program, or with what is asked of a program.
#[derive(Clone, Copy, Debug, PartialEq, Eq)]
pub enum ElfRule {
    /// They are no executable for RV32, or for a part of it that is not supported.
    NotProgram,
    /// A header, a table, a segment or the strings pass the end of the file.
    Truncated,
    /// Segments overlap, pass the end of the address space, or are too many or too large together.
    Ranges,
    /// No symbol has the name, or none of the wanted type.
    Symbol,
    /// An argument is not allowed.
    Argument,
}

impl ElfRule {
    /// Its short code, as `G2`.
    pub fn code(self) -> &'static str
        ensures { result.now ≡ code_of self }
    {
        match self {
            ElfRule::NotProgram => "G1",
            ElfRule::Truncated => "G2",
            ElfRule::Ranges => "G3",
            ElfRule::Symbol => "G4",
            ElfRule::Argument => "G5",
        }
    }

    /// What it says, in a few words, as `truncated`.
    pub fn name(self) -> &'static str
        ensures { result.now ≡ name_of self }
    {
        match self {
            ElfRule::NotProgram => "not a program for RV32",
            ElfRule::Truncated => "truncated",
            ElfRule::Ranges => "memory",
            ElfRule::Symbol => "symbol",
            ElfRule::Argument => "argument",
        }
    }
}

/// The code.
impl fmt::Display for ElfRule {
    ghost use Rattle.std.specs.Prelude.{Some};
    ghost use Rattle.elf.specs.RuleNames.{code_of};

    ghost output = { λ rule. Some (code_of rule) };

    fn fmt<W: fmt::Write>(&self, f: &mut fmt::Formatter<W>) -> fmt::Result {
        f.write_str(self.code())
    }
}

/// The rule that a file breaks first, and the byte at which this is told: that of the field that the check is about.
#[derive(Clone, Copy)]
pub struct Broken {
    pub rule: ElfRule,
    pub at: usize,
}

/// Why a program was not read.
#[derive(Clone, Copy, Debug, PartialEq, Eq)]
pub enum ElfFault {
    /// The first check that does not hold, by the place of the first byte of the field that it is about.
    File { rule: ElfRule, at: usize },
    /// A growth was refused.
    Memory,
}

impl From<Broken> for ElfFault {
    ghost use Rattle.elf.specs.declared.fault.ElfFault.TheVariants.{File};

    ghost from_gives = { λ broken fault. fault ≡ File broken.rule broken.at };

    fn from(broken: Broken) -> Self {
        ElfFault::File {
            rule: broken.rule,
            at: broken.at,
        }
    }
}

impl From<AllocError> for ElfFault {
    ghost use Rattle.elf.specs.declared.fault.ElfFault.TheVariants.{Memory};

    ghost from_gives = { λ _ fault. fault ≡ Memory };

    fn from(_: AllocError) -> Self {
        ElfFault::Memory
    }
}

impl<T: Drop> From<AllocFailed<T>> for ElfFault {
    ghost use Rattle.elf.specs.declared.fault.ElfFault.TheVariants.{Memory};

    ghost from_gives = { λ _ fault. fault ≡ Memory };

    fn from(_: AllocFailed<T>) -> Self {
        ElfFault::Memory
    }
}

/// `G1 at byte 18: not a program for RV32`, or `M1: memory`.
impl fmt::Display for ElfFault {
    ghost use Rattle.std.specs.Prelude.{Some};
    ghost use Rattle.elf.specs.Text.{fault_text};

    ghost output = { λ fault. Some (fault_text fault) };

    fn fmt<W: fmt::Write>(&self, f: &mut fmt::Formatter<W>) -> fmt::Result {
        match *self {
            ElfFault::File { rule, at } => {
                let name = rule.name();
                write!(f, "{rule} at byte {at}: {name}")
            }
            ElfFault::Memory => write!(f, "M1: memory"),
        }
    }
}

impl Error for ElfFault {}
