// Bools, which are 0 or 1: better code takes their bits as they are, and makes a mask of whichever comes sooner, a
// condition or its opposite.

ghost use Rattle.std.specs.Prelude.{◌≡◌};
ghost use Rattle.expression_code.specs.TermCode.{of_bits, emitted_operator, row_of, finish_of, opposite_by};
ghost use Rattle.expression_code.specs.TermCode.{opposite_in};
ghost use Rattle.expression_code.specs.Below.{term_tree};

use crate::layout::Layout;
use crate::numbers::{Finish, left_row, right_row};
use inline::Term;
use language::BinaryOperator;

/// Of words that are 0 or 1, the operator of their bits that makes the same.
fn of_bits(operator: BinaryOperator) -> BinaryOperator
    ensures { result ≡ of_bits operator }
{
    match operator {
        BinaryOperator::LogicalOr => BinaryOperator::BitOr,
        BinaryOperator::LogicalAnd => BinaryOperator::BitAnd,
        _ => operator,
    }
}

/// The operator whose code is emitted between two operands.
pub fn emitted(layout: &Layout<'_>, operator: BinaryOperator) -> BinaryOperator
    ensures { result ≡ emitted_operator layout.now.allocation operator }
{
    if layout.immediates() {
        of_bits(operator)
    } else {
        operator
    }
}

/// What the code of an operator ends with, where both operands are in registers.
fn own_finish(operator: BinaryOperator) -> Finish
    ensures { result ≡ (row_of operator).finish }
{
    match operator {
        BinaryOperator::Equal | BinaryOperator::LessOrEqual | BinaryOperator::GreaterOrEqual => {
            Finish::GivesZero
        }
        BinaryOperator::Unequal => Finish::GivesMore,
        BinaryOperator::ShiftLeft
        | BinaryOperator::ShiftRight
        | BinaryOperator::Add
        | BinaryOperator::Subtract
        | BinaryOperator::Multiply => Finish::Narrowed,
        _ => Finish::Alone,
    }
}

/// What the code of an operator between two expressions ends with.
fn finish(layout: &Layout<'_>, operator: BinaryOperator, left: &Term, right: &Term) -> Finish
    ensures { result ≡ finish_of layout.now.allocation operator (term_tree left.now) (term_tree right.now) }
{
    if let Some(row) = right_row(layout, operator, right) {
        return row.finish;
    }
    if let Some(row) = left_row(layout, operator, left) {
        return row.finish;
    }
    own_finish(operator)
}

/// The opposite of a comparison that ends with whether something is 0.
fn opposite_by(finish: Finish, operator: BinaryOperator) -> Option<BinaryOperator>
    ensures { result ≡ opposite_by finish operator }
{
    match finish {
        Finish::GivesZero => operator.opposite(),
        Finish::Alone | Finish::GivesMore | Finish::Narrowed => None,
    }
}

/// The comparison that a condition's mask is made of, where that is its opposite.
pub fn opposite_in(layout: &Layout<'_>, condition: &Term) -> Option<BinaryOperator>
    ensures { result ≡ opposite_in layout.now.allocation (term_tree condition.now) }
{
    match condition {
        Term::Binary(_, operator, _, left, right) => {
            if layout.immediates() {
                opposite_by(finish(layout, *operator, left, right), *operator)
            } else {
                None
            }
        }
        _ => None,
    }
}
