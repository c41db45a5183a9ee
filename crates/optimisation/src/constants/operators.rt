// What the operators make of words that are known.

ghost use Rattle.std.specs.Prelude.{◌≡◌};
ghost use Rattle.optimisation.specs.constants.private.Folding.{decided_by_left, decided_by_right, folded};
ghost use Rattle.optimisation.specs.constants.private.Folding.{is_left_identity};
ghost use Rattle.optimisation.specs.constants.private.Folding.{is_right_identity};

use language::{BinaryOperator, is_true};
use word::Width;

/// The value between two operands, the left of this width. A quotient or a remainder by 0 has none.
pub fn folded(operator: BinaryOperator, width: Width, a: u32, b: u32) -> Option<u32>
    ensures { result ≡ folded operator width a b }
{
    if operator.divides() && b == 0 {
        return None;
    }
    Some(operator.apply(width, a, b))
}

/// What an operator comes to by its left operand alone, whatever the right one is: a bool, where it does.
pub fn decided_by_left(operator: BinaryOperator, left: u32) -> Option<bool>
    ensures { result ≡ decided_by_left operator left }
{
    match operator {
        BinaryOperator::LogicalOr => is_true(left).then_some(true),
        BinaryOperator::LessOrEqual => (left == 0).then_some(true),
        BinaryOperator::LogicalAnd | BinaryOperator::Greater => (left == 0).then_some(false),
        _ => None,
    }
}

/// And by its right operand alone.
pub fn decided_by_right(operator: BinaryOperator, right: u32) -> Option<bool>
    ensures { result ≡ decided_by_right operator right }
{
    match operator {
        BinaryOperator::LogicalOr => is_true(right).then_some(true),
        BinaryOperator::GreaterOrEqual => (right == 0).then_some(true),
        BinaryOperator::LogicalAnd | BinaryOperator::Less => (right == 0).then_some(false),
        _ => None,
    }
}

/// Whether an operator, its left operand of this width, leaves that as it is where this is the right one.
pub fn is_right_identity(operator: BinaryOperator, width: Width, right: u32) -> bool
    ensures { result ≡ is_right_identity operator width right }
{
    match operator {
        BinaryOperator::LogicalAnd => is_true(right),
        BinaryOperator::BitAnd => right == word::complement(width, 0),
        BinaryOperator::Multiply | BinaryOperator::Divide => right == 1,
        BinaryOperator::LogicalOr
        | BinaryOperator::BitOr
        | BinaryOperator::BitXor
        | BinaryOperator::ShiftLeft
        | BinaryOperator::ShiftRight
        | BinaryOperator::Add
        | BinaryOperator::Subtract => right == 0,
        _ => false,
    }
}

/// Whether an operator, its left operand of this width, leaves the right one as it is where this is the left one.
pub fn is_left_identity(operator: BinaryOperator, width: Width, left: u32) -> bool
    ensures { result ≡ is_left_identity operator width left }
{
    match operator {
        BinaryOperator::LogicalAnd => is_true(left),
        BinaryOperator::BitAnd => left == word::complement(width, 0),
        BinaryOperator::Multiply => left == 1,
        BinaryOperator::LogicalOr
        | BinaryOperator::BitOr
        | BinaryOperator::BitXor
        | BinaryOperator::Add => left == 0,
        _ => false,
    }
}
