ghost use Rattle.std.specs.Prelude.{◌≡◌, drop, length, slice_set, take, OnOk};
ghost use Rattle.intervals.specs.Intervals.{known, with_bound};
ghost use Rattle.intervals.specs.Narrowing.{meet, met, met_all};
ghost use Rattle.intervals.specs.Undoing.{rewound, CameFrom};

use crate::Interval;
use crate::said::SaidOfVariable;
use std::alloc::{AllocError, Global};

/// What was known of a variable before something else was.
#[derive(Clone, Copy)]
pub struct BoundChange {
    pub variable: u32,
    pub before: Option<Interval>,
}

/// What is known of the variables, at their numbers, and all changes of it, the last one last.
#[derive(Drop)]
pub struct KnownBounds {
    pub alloc: Global,
    pub bounds: Vec<Option<Interval>>,
    pub changes: Vec<BoundChange>,
}

/// What both say, where they do not exclude each other.
fn meet(one: Interval, other: Interval) -> Option<Interval>
    ensures { result ≡ meet one other }
{
    let low = one.low.max(other.low);
    let high = one.high.min(other.high);
    if low <= high {
        Some(Interval { low, high })
    } else {
        None
    }
}

/// What is known of a variable.
pub fn bound_of(bounds: &[Option<Interval>], variable: u32) -> Option<Interval>
    ensures { result ≡ known bounds.now variable }
{
    match bounds.get(variable as usize) {
        Some(bound) => *bound,
        None => None,
    }
}

impl KnownBounds {
    /// How many changes there are.
    pub fn mark(&self) -> usize
        ensures { result ≡ length self.now.changes.items }
    {
        self.changes.len()
    }

    /// From here on this is known of a variable.
    pub fn set(&mut self, variable: u32, interval: Interval) -> Result<(), AllocError>
        ensures bounds { OnOk result (self.new.bounds.items ≡ with_bound self.old.bounds.items variable interval) }
        ensures from { OnOk result (CameFrom self.old self.new) }
    {
        let Some(before) = self.bounds.get(variable as usize).copied() else {
            return Ok(());
        };
        self.changes.push(BoundChange { variable, before })?;
        self.bounds[variable as usize] = Some(interval);
        Ok(())
    }

    /// A variable of which something is known lies in this interval too. Where that cannot be, it is passed over.
    pub fn meet(&mut self, said: SaidOfVariable) -> Result<(), AllocError>
        ensures bounds { OnOk result (self.new.bounds.items ≡ met self.old.bounds.items said) }
        ensures from { OnOk result (CameFrom self.old self.new) }
    {
        let Some(before) = bound_of(self.bounds.as_slice(), said.variable) else {
            return Ok(());
        };
        match meet(before, said.interval) {
            Some(both) => self.set(said.variable, both),
            None => Ok(()),
        }
    }

    /// One after the other.
    pub fn meet_all(&mut self, told: &[SaidOfVariable]) -> Result<(), AllocError>
        ensures bounds { OnOk result (self.new.bounds.items ≡ met_all self.old.bounds.items told.now) }
        ensures from { OnOk result (CameFrom self.old self.new) }
    {
        for said in told {
            self.meet(*said)?;
        }
        Ok(())
    }

    /// What is known of a variable is again what was known before a change.
    fn restore(&mut self, change: BoundChange)
        ensures bounds { self.new.bounds.items ≡ slice_set self.old.bounds.items change.variable change.before }
        ensures changes { self.new.changes ≡ self.old.changes }
    {
        if let Some(bound) = self.bounds.get_mut(change.variable as usize) {
            *bound = change.before;
        }
    }

    /// Takes all changes after so many back.
    pub fn rewind(&mut self, mark: usize)
        ensures bounds { self.new.bounds.items ≡ rewound (drop mark self.old.changes.items) self.old.bounds.items }
        ensures changes { self.new.changes.items ≡ take mark self.old.changes.items }
    {
        while self.changes.len() > mark {
            if let Some(change) = self.changes.pop() {
                self.restore(change);
            }
        }
    }
}
