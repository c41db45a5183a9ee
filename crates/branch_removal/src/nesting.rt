// Statements that hold others.

ghost use Rattle.std.specs.Prelude.{◌≡◌};
ghost use Rattle.branch_removal.specs.Straight as straight;
ghost use Rattle.branch_removal.specs.Straight.{straight_block, straight_tree};
ghost use Rattle.branch_removal.specs.Below.{term_tree};

use crate::StraightStatement;
use inline::Term;

/// A branch with these arms.
pub fn branch_of(
    condition: Term,
    accepted: Vec<StraightStatement>,
    otherwise: Vec<StraightStatement>,
) -> StraightStatement
    ensures { straight_tree result
        ≡ straight.branch (term_tree condition) (straight_block accepted.items) (straight_block otherwise.items) }
{
    StraightStatement::Branch(condition, accepted, otherwise)
}

/// A loop with this body.
pub fn loop_of(
    counter: u32,
    low: Term,
    high: Term,
    body: Vec<StraightStatement>,
) -> StraightStatement
    ensures { straight_tree result
        ≡ straight.repeats counter (term_tree low) (term_tree high) (straight_block body.items) }
{
    StraightStatement::Repeat(counter, low, high, body)
}
