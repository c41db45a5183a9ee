ghost use Rattle.std.specs.Prelude.{◌≡◌, ◌≤◌, List, fold, length, IfOk, false};
ghost use Rattle.std.specs.Vec.{vec_capacity};
ghost use Rattle.language.specs.declared.typing.Violation.{Violation};
ghost use Rattle.language.specs.declared.why.Why.{Why};
ghost use Rattle.language.specs.declared.why.Why.TheVariants.{Plain};
ghost use Rattle.language.specs.Types.{at, because, when};
ghost use Rattle.language.specs.Sooner.{sooner};
ghost use Rattle.findings.specs.Noted.{kept_within, noted, nothing_within, one_more, would_tell};
ghost use Rattle.findings.specs.Order.{AreInOrder};

use crate::order::in_order;
use language::{First, Place, Rule, Violation, Why};
use std::alloc::{AllocError, Global};
use std::marker::Model;

/// What is kept of the violations that a walk meets: the first of them, how many there are, and the earliest, as many
/// as there was room for when the walk began. So a note asks for no memory: a first walk finds how many there
/// are, and one that is to keep them all begins with room for so many.
#[derive(Drop)]
pub struct Findings {
    first: First,
    count: usize,
    kept: Vec<Violation>,
    room: usize,
}

impl Model for Findings {
    ghost use Rattle.std.specs.Prelude.{◌≤◌};
    ghost use Rattle.std.specs.Vec.{vec_capacity};
    ghost use Rattle.findings.specs.Noted.{Noted};

    ghost Value = { Noted };

    ghost view = { λ f. record { first = f.first.seen; count = f.count; kept = f.kept.items; room = f.room } };

    ghost invariant = { λ f. f.room ≤ vec_capacity f.kept };
}

/// One more, up to the greatest number.
fn one_more(count: usize) -> usize
    ensures { result ≡ one_more count }
{
    if count < usize::MAX { count + 1 } else { count }
}

/// Keeps one more, where there is room.
fn keep(kept: &mut Vec<Violation>, room: usize, violation: Violation)
    requires { room ≤ vec_capacity kept.old }
    ensures kept { kept.new.items ≡ kept_within room kept.old.items violation }
    ensures capacity { vec_capacity kept.new ≡ vec_capacity kept.old }
{
    if kept.len() < room {
        kept.push_reserved(violation);
    }
}

impl Findings {
    /// Nothing so far, and no room: of what comes the first is kept, and how many there are.
    pub fn new(alloc: Global) -> Self
        ensures { result ≡ nothing_within 0 }
    {
        Findings {
            first: First { seen: None },
            count: 0,
            kept: Vec::new(alloc),
            room: 0,
        }
    }

    /// Nothing so far, with room for so many.
    pub fn within(alloc: Global, room: usize) -> Result<Self, AllocError>
        ensures { IfOk result (λ findings. findings ≡ nothing_within room) }
    {
        Ok(Findings {
            first: First { seen: None },
            count: 0,
            kept: Vec::with_capacity(alloc, room)?,
            room,
        })
    }

    /// Whether a rule that is violated at a place would be told: it would be the first, or there is room for it.
    pub fn would_tell(&self, place: Place, rule: Rule) -> bool
        ensures { result ≡ would_tell self.now (record { place = place; rule = rule; why = Plain }) }
    {
        self.first.would_name(place, rule) || self.kept.len() < self.room
    }

    /// One more.
    #[tactic(auto, unfolding(crate::specs::Noted::noted))]
    fn add(&mut self, violation: Violation)
        ensures { self.new ≡ noted self.old violation }
    {
        self.first
            .note(true, violation.place, violation.rule, violation.why);
        self.count = one_more(self.count);
        keep(&mut self.kept, self.room, violation);
    }

    /// Notes a rule that is violated at a place for this reason, where it is.
    pub fn note(&mut self, violated: bool, place: Place, rule: Rule, why: Why)
        ensures { self.new ≡ fold noted self.old (because why place (when violated rule)) }
    {
        if violated {
            self.add(Violation { place, rule, why });
        }
    }

    /// The same, where rule and place say it all.
    pub fn note_if(&mut self, violated: bool, place: Place, rule: Rule)
        ensures { self.new ≡ fold noted self.old (at place (when violated rule)) }
    {
        self.note(violated, place, rule, Why::Plain);
    }

    /// Notes a rule that is violated at a place and would not be told, whatever the reason.
    pub fn pass_over(&mut self, place: Place, rule: Rule)
        requires { would_tell self.old (record { place = place; rule = rule; why = Plain }) ≡ false }
        ensures { (why : Why) → self.new ≡ noted self.old (record { place = place; rule = rule; why = why }) }
    {
        self.note(true, place, rule, Why::Plain);
    }

    /// The first of all that came.
    pub fn first(&self) -> Option<Violation>
        ensures { (all : List Violation) → self.now ≡ fold noted (nothing_within 0) all
            → result ≡ fold sooner None all }
    {
        self.first.seen
    }

    /// Nothing so far, with room for as many as came.
    pub fn again(&self, alloc: Global) -> Result<Self, AllocError>
        ensures { (all : List Violation) → self.now ≡ fold noted (nothing_within 0) all
            → IfOk result (λ findings. findings ≡ nothing_within (length all)) }
    {
        if self.count < usize::MAX {
            Findings::within(alloc, self.count)
        } else {
            Err(AllocError)
        }
    }

    /// All that came, in their order, where there was room for so many.
    pub fn in_order(self) -> Result<Vec<Violation>, AllocError>
        ensures { (all : List Violation) → self ≡ fold noted (nothing_within (length all)) all
            → IfOk result (λ ordered. AreInOrder all ordered.items) }
    {
        in_order(self.kept)
    }
}
