// Why a run gives no outcome, and how that is printed.

ghost use Rattle.std.specs.Prelude.{◌≡◌};
ghost use Rattle.hepurita.specs.declared.fault.RunFault.TheVariants.{Argument, Memory};

use language::Refusal;
use language::arguments::{ArgumentFault, ArgumentRule};
use rv_machine::Stop;
use std::alloc::{AllocError, AllocFailed};
use std::fmt;

/// Why a run gave no outcome.
#[derive(Clone, Copy, Debug, PartialEq, Eq)]
pub enum RunFault {
    /// An argument is refused; the count of arguments has no index.
    Argument {
        rule: ArgumentRule,
        index: Option<usize>,
    },
    /// A growth was refused.
    Memory,
    /// The run ended otherwise than by ECALL.
    Stopped(Stop),
}

impl From<ArgumentFault> for RunFault {
    ghost from_gives = { λ fault result. result ≡ Argument fault.rule fault.index };

    fn from(fault: ArgumentFault) -> Self {
        RunFault::Argument {
            rule: fault.rule,
            index: fault.index,
        }
    }
}

impl From<AllocError> for RunFault {
    ghost from_gives = { λ _ result. result ≡ Memory };

    fn from(_: AllocError) -> Self {
        RunFault::Memory
    }
}

impl<T: Drop> From<AllocFailed<T>> for RunFault {
    ghost from_gives = { λ _ result. result ≡ Memory };

    fn from(_: AllocFailed<T>) -> Self {
        RunFault::Memory
    }
}

/// `A3 at argument 0: value outside type`, `A1: argument count`, `M1: memory`, or the stop's name.
impl fmt::Display for RunFault {
    ghost use Rattle.std.specs.Prelude.{Some};
    ghost use Rattle.hepurita.specs.Text.{run_fault_text};

    ghost output = { λ fault. Some (run_fault_text fault) };

    fn fmt<W: fmt::Write>(&self, f: &mut fmt::Formatter<W>) -> fmt::Result {
        match *self {
            RunFault::Argument { rule, index } => {
                let fault = ArgumentFault { rule, index };
                write!(f, "{fault}")
            }
            RunFault::Memory => write!(f, "{}", Refusal::memory()),
            RunFault::Stopped(stop) => write!(f, "{stop}"),
        }
    }
}
