ghost use Rattle.std.specs.Prelude.{◌≡◌, Option};
ghost use Rattle.language.specs.Shares.{excess, larger};
ghost use Rattle.language.specs.declared.why.Share.{Share};

use crate::{Counted, Excess, Share};

/// How much there is of what is counted. The greatest number stands for those above it too.
#[derive(Clone, Copy, Debug)]
pub struct Cost {
    pub whole: u64,
    /// The first of the parts that have most, where there is one.
    pub largest: Option<Share>,
}

impl Cost {
    /// It is above its limit.
    pub fn excess(self, counted: Counted) -> Excess
        ensures { result ≡ excess counted self }
    {
        Excess {
            counted,
            whole: self.whole,
            largest: self.largest,
        }
    }
}

/// Of the part that has most so far, where there is one, and one behind it: the first, unless the other has more.
pub fn larger(most: Option<Share>, other: Share) -> Option<Share>
    ensures { result ≡ larger most other }
{
    match most {
        Some(share) if share.count >= other.count => Some(share),
        _ => Some(other),
    }
}
