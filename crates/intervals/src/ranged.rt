ghost use Rattle.std.specs.Prelude.{◌≡◌};
ghost use Rattle.intervals.specs.Kept.{IsRanged};

use inline::Flat;
use std::marker::Model;

/// A body with what is counted for it, its work within the limit. It is safe: no run meets a fault, or makes more
/// iterations in a loop than are counted for it.
#[derive(Drop)]
pub struct Ranged<'f> {
    flat: &'f Flat,
    iterations: Vec<u32>,
    work: u64,
}

impl<'f> Model for Ranged<'f> {
    ghost use Rattle.intervals.specs.Codes.{coded_ranged};
    ghost use Rattle.intervals.specs.Kept.{IsRanged};
    ghost use Rattle.intervals.specs.Ranged.{RangedProgram};

    ghost Value = { RangedProgram };

    ghost coded = { coded_ranged };

    ghost view = { λ r. record { flat = r.flat.now; iterations = r.iterations.items; work = r.work } };

    ghost invariant = { λ r. IsRanged (record { flat = r.flat.now; iterations = r.iterations.items; work = r.work }) };
}

impl<'f> Ranged<'f> {
    /// A body with what is counted for it.
    pub(crate) fn new(flat: &'f Flat, iterations: Vec<u32>, work: u64) -> Self
        requires { IsRanged (record { flat = flat.now; iterations = iterations.items; work = work }) }
        ensures { result ≡ record { flat = flat.now; iterations = iterations.items; work = work } }
    {
        Ranged {
            flat,
            iterations,
            work,
        }
    }

    /// The body.
    pub fn flat(&self) -> &'f Flat
        ensures flat { result.now ≡ self.now.flat }
        ensures kept { IsRanged self.now }
    {
        self.flat
    }

    /// How many iterations the loop of each counter makes at most, at the counter's number; 0 at all other numbers.
    pub fn iterations(&self) -> &[u32]
        ensures { result.now ≡ self.now.iterations }
    {
        self.iterations.as_slice()
    }

    /// How many nodes a run evaluates at most.
    pub fn work(&self) -> u64
        ensures { result ≡ self.now.work }
    {
        self.work
    }
}
