// Copies of the expressions of a body: straight code owns its own.

ghost use Rattle.std.specs.Prelude.{◌≡◌, map, IfOk};
ghost use Rattle.std.specs.Option.{option_map};
ghost use Rattle.branch_removal.specs.Below.{term_tree};

use inline::Term;
use std::alloc::{AllocError, Global};

/// A copy of an expression.
#[cycle(copied)]
pub fn copied(alloc: Global, term: &Term) -> Result<Term, AllocError>
    ensures { IfOk result (λ copy. term_tree copy ≡ term_tree term.now) }
{
    match term {
        Term::Number(value, kind) => Ok(Term::Number(*value, *kind)),
        Term::Truth(value) => Ok(Term::Truth(*value)),
        Term::Variable(number) => Ok(Term::Variable(*number)),
        Term::Prefix(operator, width, operand) => {
            let operand = boxed(alloc, operand)?;
            Ok(Term::Prefix(*operator, *width, operand))
        }
        Term::Binary(place, operator, width, left, right) => {
            let left = boxed(alloc, left)?;
            let right = boxed(alloc, right)?;
            Ok(Term::Binary(*place, *operator, *width, left, right))
        }
        Term::Rotate(width, operand, amount) => {
            let operand = boxed(alloc, operand)?;
            Ok(Term::Rotate(*width, operand, *amount))
        }
        Term::Convert(kind, operand) => {
            let operand = boxed(alloc, operand)?;
            Ok(Term::Convert(*kind, operand))
        }
        Term::Select(condition, accepted, otherwise) => {
            let condition = boxed(alloc, condition)?;
            let accepted = boxed(alloc, accepted)?;
            let otherwise = boxed(alloc, otherwise)?;
            Ok(Term::Select(condition, accepted, otherwise))
        }
        Term::Element(place, array, size, index) => {
            let index = boxed(alloc, index)?;
            Ok(Term::Element(*place, *array, *size, index))
        }
    }
}

/// A copy of an expression, in a box of its own.
#[cycle(copied)]
fn boxed(alloc: Global, term: &Term) -> Result<Box<Term>, AllocError>
    ensures { IfOk result (λ copy. term_tree copy.value ≡ term_tree term.now) }
{
    let copy = copied(alloc, term)?;
    Ok(Box::new(alloc, copy)?)
}

/// Copies of expressions, in their order.
pub fn all_copied(alloc: Global, terms: &[Term]) -> Result<Vec<Term>, AllocError>
    ensures { IfOk result (λ copies. map term_tree copies.items ≡ map term_tree terms.now) }
{
    let mut copies = Vec::new(alloc);
    for term in terms {
        copies.push(copied(alloc, term)?)?;
    }
    Ok(copies)
}

/// A copy of an expression, where there is one.
pub fn copied_where_any(alloc: Global, term: Option<&Term>) -> Result<Option<Term>, AllocError>
    ensures { IfOk result (λ copy. option_map term_tree copy ≡ option_map (λ term. term_tree term.now) term.entry) }
{
    match term {
        Some(term) => Ok(Some(copied(alloc, term)?)),
        None => Ok(None),
    }
}
