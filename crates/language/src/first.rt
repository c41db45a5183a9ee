ghost use Rattle.std.specs.Prelude.{◌≡◌, fold};
ghost use Rattle.language.specs.Types.{at, because, when};
ghost use Rattle.language.specs.Sooner.{is_sooner, sooner};
ghost use Rattle.language.specs.declared.why.Why.TheVariants.{Plain};

use crate::{Place, Rule, Violation, Why};

/// The first of the violations seen so far.
#[derive(Drop)]
pub struct First {
    pub seen: Option<Violation>,
}

impl First {
    /// Whether a rule that is violated at a place would be named rather than those seen so far.
    pub fn would_name(&self, place: Place, rule: Rule) -> bool
        ensures { result ≡ is_sooner self.now.seen (record { place = place; rule = rule; why = Plain }) }
    {
        let one = Violation {
            place,
            rule,
            why: Why::Plain,
        };
        match self.seen {
            Some(other) => one.precedes(other),
            None => true,
        }
    }

    /// Notes a rule that is violated at a place for this reason, where it is.
    pub fn note(&mut self, violated: bool, place: Place, rule: Rule, why: Why)
        ensures { self.new.seen ≡ fold sooner self.old.seen (because why place (when violated rule)) }
    {
        if !violated {
            return;
        }
        let one = Violation { place, rule, why };
        match self.seen {
            Some(other) if !one.precedes(other) => {}
            _ => self.seen = Some(one),
        }
    }

    /// The same, where rule and place say it all.
    pub fn note_if(&mut self, violated: bool, place: Place, rule: Rule)
        ensures { self.new.seen ≡ fold sooner self.old.seen (at place (when violated rule)) }
    {
        self.note(violated, place, rule, Why::Plain);
    }
}
