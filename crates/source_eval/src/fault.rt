ghost use Rattle.std.specs.Prelude.{◌≡◌};
ghost use Rattle.source_eval.specs.declared.fault.EvalFault.TheVariants.{Memory};

use language::arguments::ArgumentFault;
use language::{Place, Refusal};
use std::alloc::{AllocError, AllocFailed};
use std::fmt;

/// Why a program gives nothing.
#[derive(Clone, Copy, Debug, PartialEq, Eq)]
pub enum EvalFault {
    /// The first fault of the arguments.
    Argument(ArgumentFault),
    /// The program has no meaning on the arguments: an index not below the length, or a divisor 0, at this place.
    NoMeaning(Place),
    /// More nodes are evaluated than allowed, or more bodies open.
    Budget,
    /// A growth was refused.
    Memory,
}

impl From<AllocError> for EvalFault {
    ghost from_gives = { λ _ fault. fault ≡ Memory };

    fn from(_: AllocError) -> Self {
        EvalFault::Memory
    }
}

impl<T: Drop> From<AllocFailed<T>> for EvalFault {
    ghost from_gives = { λ _ fault. fault ≡ Memory };

    fn from(_: AllocFailed<T>) -> Self {
        EvalFault::Memory
    }
}

/// `A3 at argument 0: value outside type`, `E1: no meaning`, `E2: budget` or `M1: memory`.
impl fmt::Display for EvalFault {
    ghost use Rattle.std.specs.Prelude.{Some};
    ghost use Rattle.source_eval.specs.FaultText.{eval_fault_text};

    ghost output = { λ fault. Some (eval_fault_text fault) };

    fn fmt<W: fmt::Write>(&self, f: &mut fmt::Formatter<W>) -> fmt::Result {
        match self {
            EvalFault::Argument(fault) => write!(f, "{fault}"),
            EvalFault::NoMeaning(_) => f.write_str("E1: no meaning"),
            EvalFault::Budget => f.write_str("E2: budget"),
            EvalFault::Memory => write!(f, "{}", Refusal::memory()),
        }
    }
}
