// Expressions with numbers in place of names, made of their operands. Each comes with its kind.

ghost use Rattle.std.specs.Prelude.{◌≡◌, IfOk};
ghost use Rattle.inline.specs.Flat as flat;
ghost use Rattle.inline.specs.Flat.{numbers_in, term_tree};
ghost use Rattle.inline.specs.Below.{operation_kind, operation_of, width_of};

use crate::Term;
use crate::numbering::Numbered;
use language::{BinaryOperator, Kind, Place, PrefixOperator};
use std::alloc::{AllocError, Global};

/// A sign before an operand.
pub fn prefix(
    alloc: Global,
    operator: PrefixOperator,
    operand: (Term, Kind),
) -> Result<(Term, Kind), AllocError>
    ensures term { IfOk result (λ whole.
        term_tree whole.0 ≡ flat.prefix operator (width_of operand.1) (term_tree operand.0)) }
    ensures kind { IfOk result (λ whole. whole.1 ≡ operand.1) }
{
    let (term, kind) = operand;
    let term = Term::Prefix(operator, kind.width(), Box::new(alloc, term)?);
    Ok((term, kind))
}

/// An operator between two operands.
pub fn binary(
    alloc: Global,
    place: Place,
    operator: BinaryOperator,
    left: (Term, Kind),
    right: Term,
) -> Result<(Term, Kind), AllocError>
    ensures term { IfOk result (λ whole. term_tree whole.0
        ≡ flat.binary place operator (width_of left.1) (term_tree left.0) (term_tree right)) }
    ensures kind { IfOk result (λ whole. whole.1 ≡ operation_kind (operation_of operator) left.1) }
{
    let (term, kind) = left;
    let left = Box::new(alloc, term)?;
    let right = Box::new(alloc, right)?;
    let whole = Term::Binary(place, operator, kind.width(), left, right);
    Ok((whole, operator.result_kind(kind)))
}

/// A rotation by so many bits.
pub fn rotate(alloc: Global, operand: (Term, Kind), amount: u32) -> Result<(Term, Kind), AllocError>
    ensures term { IfOk result (λ whole.
        term_tree whole.0 ≡ flat.rotate (width_of operand.1) (term_tree operand.0) amount) }
    ensures kind { IfOk result (λ whole. whole.1 ≡ operand.1) }
{
    let (term, kind) = operand;
    let term = Term::Rotate(kind.width(), Box::new(alloc, term)?, amount);
    Ok((term, kind))
}

/// A choice between two operands.
pub fn select(
    alloc: Global,
    condition: Term,
    accepted: (Term, Kind),
    otherwise: Term,
) -> Result<(Term, Kind), AllocError>
    ensures term { IfOk result (λ whole. term_tree whole.0
        ≡ flat.select (term_tree condition) (term_tree accepted.0) (term_tree otherwise)) }
    ensures kind { IfOk result (λ whole. whole.1 ≡ accepted.1) }
{
    let (term, kind) = accepted;
    let condition = Box::new(alloc, condition)?;
    let accepted = Box::new(alloc, term)?;
    let otherwise = Box::new(alloc, otherwise)?;
    Ok((Term::Select(condition, accepted, otherwise), kind))
}

/// An element of an array.
pub fn element(
    alloc: Global,
    place: Place,
    array: Numbered,
    index: Term,
) -> Result<(Term, Kind), AllocError>
    ensures term { IfOk result (λ whole. term_tree whole.0
        ≡ flat.element place array.number (numbers_in array.declaration.elements) (term_tree index)) }
    ensures kind { IfOk result (λ whole. whole.1 ≡ array.declaration.word.kind) }
{
    let index = Box::new(alloc, index)?;
    let size = array.declaration.numbers();
    let whole = Term::Element(place, array.number, size, index);
    Ok((whole, array.declaration.word.kind))
}
