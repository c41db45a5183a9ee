ghost use Rattle.std.specs.Prelude.{◌≡◌};
ghost use Rattle.language.specs.Rules.{name_of, refusal_text};
ghost use Rattle.language.specs.WantOfMemory.{IsWantOfMemory};

use crate::{Place, Rule, Violation, Why};
use std::alloc::{AllocError, AllocFailed};
use std::fmt;

/// By which rule a text was refused, where, and why.
#[derive(Clone, Copy, Debug)]
pub struct Refusal {
    pub rule: Rule,
    /// Where the rule is violated. Out of memory alone has no place.
    pub place: Option<Place>,
    /// What was found there.
    pub why: Why,
    /// The rule in a few words.
    pub name: &'static str,
    ghost named: { name.now ≡ name_of rule },
}

impl Refusal {
    /// A violation of a rule.
    pub fn of(violation: Violation) -> Self
        ensures rule { result.rule ≡ violation.rule }
        ensures place { result.place ≡ Some violation.place }
        ensures why { result.why ≡ violation.why }
    {
        Refusal {
            rule: violation.rule,
            place: Some(violation.place),
            why: violation.why,
            name: violation.rule.name(),
        }
    }

    /// A rule violated at a place, which say it all.
    pub fn at(rule: Rule, place: Place) -> Self
        ensures rule { result.rule ≡ rule }
        ensures place { result.place ≡ Some place }
        ensures why { result.why ≡ Why.Plain }
    {
        Refusal::of(Violation {
            place,
            rule,
            why: Why::Plain,
        })
    }

    /// A growth was refused.
    pub fn memory() -> Self
        ensures rule { result.rule ≡ Rule.OutOfMemory }
        ensures place { result.place ≡ None }
        ensures why { result.why ≡ Why.Plain }
    {
        Refusal {
            rule: Rule::OutOfMemory,
            place: None,
            why: Why::Plain,
            name: Rule::OutOfMemory.name(),
        }
    }
}

impl From<AllocError> for Refusal {
    ghost from_gives = { λ _ refusal. IsWantOfMemory refusal.rule refusal.place };

    fn from(_: AllocError) -> Self {
        Refusal::memory()
    }
}

impl<T: Drop> From<AllocFailed<T>> for Refusal {
    ghost from_gives = { λ _ refusal. IsWantOfMemory refusal.rule refusal.place };

    fn from(_: AllocFailed<T>) -> Self {
        Refusal::memory()
    }
}

/// `L2 at 3:12: public assigned under secret control`, or `M1: memory`.
impl fmt::Display for Refusal {
    ghost use Rattle.std.specs.Prelude.{Some};

    ghost output = { λ refusal. Some (refusal_text refusal.rule refusal.place) };

    fn fmt<W: fmt::Write>(&self, f: &mut fmt::Formatter<W>) -> fmt::Result {
        let rule = self.rule;
        let name = self.name;
        match self.place {
            Some(place) => write!(f, "{rule} at {place}: {name}"),
            None => write!(f, "{rule}: {name}"),
        }
    }
}
