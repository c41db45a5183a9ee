ghost use Rattle.std.specs.Prelude.{◌≡◌};
ghost use Rattle.branch_removal.specs.Bounds.{IsCounted};

use crate::StraightCode;
use std::marker::Model;

/// The straight code that `remove` makes of a body: it has no more nodes than the source.
#[derive(Drop)]
pub struct Straight<'f> {
    code: StraightCode<'f>,
}

impl<'f> Model for Straight<'f> {
    ghost use Rattle.branch_removal.specs.Bounds.{IsCounted};
    ghost use Rattle.branch_removal.specs.Straight.{StraightProgram};
    ghost use Rattle.branch_removal.specs.private.StraightCodes.{coded_straight};

    ghost Value = { StraightProgram };

    ghost coded = { coded_straight };

    ghost view = { λ s. s.code };

    ghost invariant = { λ s. IsCounted s.code };
}

impl<'f> Straight<'f> {
    /// Code that has no more nodes than the source.
    pub(crate) fn new(code: StraightCode<'f>) -> Self
        requires { IsCounted code }
        ensures { result ≡ code.entry }
    {
        Straight { code }
    }

    /// The code.
    pub fn code(&self) -> &StraightCode<'f>
        ensures code { result.now ≡ self.now }
        ensures counted { IsCounted self.now }
    {
        &self.code
    }
}
