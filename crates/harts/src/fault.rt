// Why harts are not run, and how that is printed.

ghost use Rattle.std.specs.Prelude.{◌≡◌};
ghost use Rattle.harts.specs.RuleNames.{code_of, name_of};
ghost use Rattle.harts.specs.declared.fault.HartsFault.TheVariants.{Memory};

use language::arguments::ArgumentRule;
use std::alloc::{AllocError, AllocFailed};
use std::fmt;

/// What is wrong with a schedule, or with the count of harts.
#[derive(Clone, Copy, Debug, PartialEq, Eq)]
pub enum HartsRule {
    /// A line has none of the forms that lines have.
    LineForm,
    /// There is no hart, or there are more than eight.
    HartCount,
    /// An entry names a number that no hart has.
    NoSuchHart,
    /// There are more entries than may be followed.
    TooManyTurns,
}

impl HartsRule {
    /// Its short code, as `H2`.
    pub fn code(self) -> &'static str
        ensures { result.now ≡ code_of self }
    {
        match self {
            HartsRule::LineForm => "H1",
            HartsRule::HartCount => "H2",
            HartsRule::NoSuchHart => "H3",
            HartsRule::TooManyTurns => "H4",
        }
    }

    /// What it says, in a few words, as `hart count`.
    pub fn name(self) -> &'static str
        ensures { result.now ≡ name_of self }
    {
        match self {
            HartsRule::LineForm => "line form",
            HartsRule::HartCount => "hart count",
            HartsRule::NoSuchHart => "no such hart",
            HartsRule::TooManyTurns => "too many turns",
        }
    }
}

/// `H2: hart count`.
impl fmt::Display for HartsRule {
    ghost use Rattle.std.specs.Prelude.{Some};
    ghost use Rattle.harts.specs.RuleNames.{rule_text};

    ghost output = { λ rule. Some (rule_text rule) };

    fn fmt<W: fmt::Write>(&self, f: &mut fmt::Formatter<W>) -> fmt::Result {
        let code = self.code();
        let name = self.name();
        write!(f, "{code}: {name}")
    }
}

/// Why harts were not run to the schedule's end.
#[derive(Clone, Copy, Debug, PartialEq, Eq)]
pub enum HartsFault {
    /// The entry with this number, from 0, breaks a rule; the count of harts is refused at 0.
    Schedule {
        rule: HartsRule,
        at: usize,
    },
    /// An argument of the hart with this number, from 0, is refused; the count of its arguments has no
    /// index.
    Argument {
        hart: usize,
        rule: ArgumentRule,
        index: Option<usize>,
    },
    /// A growth was refused, the recorder's among them.
    Memory,
}

impl From<AllocError> for HartsFault {
    ghost from_gives = { λ _ result. result ≡ Memory };

    fn from(_: AllocError) -> Self {
        HartsFault::Memory
    }
}

impl<T: Drop> From<AllocFailed<T>> for HartsFault {
    ghost from_gives = { λ _ result. result ≡ Memory };

    fn from(_: AllocFailed<T>) -> Self {
        HartsFault::Memory
    }
}
