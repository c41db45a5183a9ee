// Expressions of which a run shows nothing.

ghost use Rattle.std.specs.Prelude.{◌≡◌};
ghost use Rattle.branch_removal.specs.Quiet.{is_marked, is_quiet};
ghost use Rattle.branch_removal.specs.Below.{term_tree};

use inline::Term;
use language::BinaryOperator;

/// Whether operands of this operator are on the path of a run: it may meet a fault at them, or they may be seen.
fn is_marked(operator: BinaryOperator) -> bool
    ensures { result ≡ is_marked operator }
{
    matches!(
        operator,
        BinaryOperator::Multiply
            | BinaryOperator::Divide
            | BinaryOperator::Remainder
            | BinaryOperator::HighProduct
    )
}

/// Whether an expression shows nothing: it meets no index, division or multiplication.
pub fn is_quiet(term: &Term) -> bool
    ensures { result ≡ is_quiet (term_tree term.now) }
{
    match term {
        Term::Number(_, _) | Term::Truth(_) | Term::Variable(_) => true,
        Term::Prefix(_, _, operand) | Term::Rotate(_, operand, _) | Term::Convert(_, operand) => {
            is_quiet(operand)
        }
        Term::Binary(_, operator, _, left, right) => {
            !is_marked(*operator) && is_quiet(left) && is_quiet(right)
        }
        Term::Select(condition, accepted, otherwise) => {
            is_quiet(condition) && is_quiet(accepted) && is_quiet(otherwise)
        }
        Term::Element(_, _, _, _) => false,
    }
}
