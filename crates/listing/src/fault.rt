// Why a listing was not written to its end.

ghost use Rattle.std.specs.Prelude.{◌≡◌};
ghost use Rattle.listing.specs.declared.fault.LeakFault.TheVariants.{Argument, Memory, Write};

use language::arguments::{ArgumentFault, ArgumentRule};
use std::alloc::AllocError;
use streams::SinkFault;

/// Why the listing of a run was not written to its end.
#[derive(Clone, Copy, Debug, PartialEq, Eq)]
pub enum LeakFault {
    /// An argument is refused; the count of arguments has no index.
    Argument {
        rule: ArgumentRule,
        index: Option<usize>,
    },
    /// A growth was refused.
    Memory,
    /// A call of the sink failed.
    Write,
}

impl From<ArgumentFault> for LeakFault {
    ghost from_gives = { λ fault result. result ≡ Argument fault.rule fault.index };

    fn from(fault: ArgumentFault) -> Self {
        LeakFault::Argument {
            rule: fault.rule,
            index: fault.index,
        }
    }
}

impl From<AllocError> for LeakFault {
    ghost from_gives = { λ _ result. result ≡ Memory };

    fn from(_: AllocError) -> Self {
        LeakFault::Memory
    }
}

impl From<SinkFault> for LeakFault {
    ghost from_gives = { λ _ result. result ≡ Write };

    fn from(_: SinkFault) -> Self {
        LeakFault::Write
    }
}
