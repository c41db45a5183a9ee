// Why a run does not begin.

use elf::ElfRule;
use std::alloc::{AllocError, AllocFailed};

/// A part of a request. Arguments, secrets and settings are counted from 0.
#[derive(Clone, Copy, Debug, PartialEq, Eq)]
pub enum Part {
    Function,
    Argument(usize),
    Secret(usize),
    Setting(usize),
    Stack,
}

/// The rule that a request breaks first, and the part of it that does.
#[derive(Clone, Copy, Debug, PartialEq, Eq)]
pub struct Unmet {
    pub rule: ElfRule,
    pub part: Part,
}

/// Why a run does not begin.
#[derive(Clone, Copy, Debug, PartialEq, Eq)]
pub enum StartFault {
    /// What the request breaks first: it names a function or an object that is not there (`Symbol`); bytes that are set
    /// are more than the object has, or the stack's size is no multiple of 16 or too small for the arguments
    /// (`Argument`); the stack and the segments are too large together, or have no place beside each other (`Ranges`).
    Refused(Unmet),
    /// A growth was refused.
    Memory,
}

impl From<Unmet> for StartFault {
    ghost use Rattle.std.specs.Prelude.{◌≡◌};
    ghost use Rattle.elf_runs.specs.declared.fault.StartFault.TheVariants.{Refused};

    ghost from_gives = { λ unmet fault. fault ≡ Refused unmet };

    fn from(unmet: Unmet) -> Self {
        StartFault::Refused(unmet)
    }
}

impl From<AllocError> for StartFault {
    ghost use Rattle.std.specs.Prelude.{◌≡◌};
    ghost use Rattle.elf_runs.specs.declared.fault.StartFault.TheVariants.{Memory};

    ghost from_gives = { λ _ fault. fault ≡ Memory };

    fn from(_: AllocError) -> Self {
        StartFault::Memory
    }
}

impl<T: Drop> From<AllocFailed<T>> for StartFault {
    ghost use Rattle.std.specs.Prelude.{◌≡◌};
    ghost use Rattle.elf_runs.specs.declared.fault.StartFault.TheVariants.{Memory};

    ghost from_gives = { λ _ fault. fault ≡ Memory };

    fn from(_: AllocFailed<T>) -> Self {
        StartFault::Memory
    }
}
