// Why a text says no vectors.

ghost use Rattle.std.specs.Prelude.{◌≡◌};
ghost use Rattle.image_reports.specs.declared.vectors.fault.VectorsFault.TheVariants.{Memory};

use language::Refusal;
use std::alloc::{AllocError, AllocFailed};
use std::fmt;

/// Why a text says no vectors.
#[derive(Clone, Copy, Debug, PartialEq, Eq)]
pub enum VectorsFault {
    /// The first line, counted from 1, that has not the form of a vector.
    Line { line: usize },
    /// It has more bytes than `LONGEST_VECTORS`.
    TooLong,
    /// A growth was refused.
    Memory,
}

impl From<AllocError> for VectorsFault {
    ghost from_gives = { λ _ fault. fault ≡ Memory };

    fn from(_: AllocError) -> Self {
        VectorsFault::Memory
    }
}

impl<T: Drop> From<AllocFailed<T>> for VectorsFault {
    ghost from_gives = { λ _ fault. fault ≡ Memory };

    fn from(_: AllocFailed<T>) -> Self {
        VectorsFault::Memory
    }
}

/// `V1 at line 3: line form`, `V2: text too long`, or `M1: memory`.
impl fmt::Display for VectorsFault {
    ghost use Rattle.std.specs.Prelude.{Some};
    ghost use Rattle.image_reports.specs.vectors.FaultText.{vectors_fault_text};

    ghost output = { λ fault. Some (vectors_fault_text fault) };

    fn fmt<W: fmt::Write>(&self, f: &mut fmt::Formatter<W>) -> fmt::Result {
        match *self {
            VectorsFault::Line { line } => write!(f, "V1 at line {line}: line form"),
            VectorsFault::TooLong => write!(f, "V2: text too long"),
            VectorsFault::Memory => write!(f, "{}", Refusal::memory()),
        }
    }
}
