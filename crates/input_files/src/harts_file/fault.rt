ghost use Rattle.std.specs.Prelude.{◌≡◌};
ghost use Rattle.input_files.specs.declared.harts_file.fault.PlanFault.TheVariants.{Memory};
ghost use Rattle.input_files.specs.declared.harts_file.fault.PlanFileFault.TheVariants.{Plan};

use harts::HartsRule;
use language::Refusal;
use std::alloc::{AllocError, AllocFailed};
use std::fmt;

/// Why a text gives no plan.
#[derive(Clone, Copy, Debug, PartialEq, Eq)]
pub enum PlanFault {
    /// The first faulty line, counted from 1, and the rule that it breaks.
    Line { rule: HartsRule, line: usize },
    /// A growth was refused.
    Memory,
}

impl From<AllocError> for PlanFault {
    ghost from_gives = { λ _ fault. fault ≡ Memory };

    fn from(_: AllocError) -> Self {
        PlanFault::Memory
    }
}

impl<T: Drop> From<AllocFailed<T>> for PlanFault {
    ghost from_gives = { λ _ fault. fault ≡ Memory };

    fn from(_: AllocFailed<T>) -> Self {
        PlanFault::Memory
    }
}

/// `H1 at line 3: line form`, or `M1: memory`.
impl fmt::Display for PlanFault {
    ghost use Rattle.std.specs.Prelude.{Some};
    ghost use Rattle.input_files.specs.harts_file.Text.{plan_fault_text};

    ghost output = { λ fault. Some (plan_fault_text fault) };

    fn fmt<W: fmt::Write>(&self, f: &mut fmt::Formatter<W>) -> fmt::Result {
        match *self {
            PlanFault::Line { rule, line } => {
                let code = rule.code();
                let name = rule.name();
                write!(f, "{code} at line {line}: {name}")
            }
            PlanFault::Memory => write!(f, "{}", Refusal::memory()),
        }
    }
}

/// Why a file gives no plan.
#[derive(Clone, Copy, Debug, PartialEq, Eq)]
pub enum PlanFileFault {
    /// A call of its source failed.
    Read,
    /// Its bytes are no text.
    NotUtf8,
    /// Its text gives no plan.
    Plan(PlanFault),
}

impl From<PlanFault> for PlanFileFault {
    ghost from_gives = { λ why fault. fault ≡ Plan why };

    fn from(why: PlanFault) -> Self {
        PlanFileFault::Plan(why)
    }
}
