// Expressions that are made anew.

ghost use Rattle.std.specs.Prelude.{◌≡◌, map, IfOk};
ghost use Rattle.std.specs.Option.{option_map};
ghost use Rattle.straight_words.specs.Below.{term_tree};
ghost use Rattle.straight_words.specs.private.Rewriting.{rebuilt, rewritten};

use crate::rewriting::Rewriting;
use inline::Term;
use std::alloc::{AllocError, Global};

/// An expression.
#[cycle(expressions)]
pub fn rewritten<R: Rewriting>(
    alloc: Global,
    rewriting: &R,
    term: &Term,
) -> Result<Term, AllocError>
    ensures { IfOk result (λ made. term_tree made ≡ rewritten (R.rule rewriting.now) (term_tree term.now)) }
{
    match rewriting.instead(alloc, term)? {
        Some(made) => Ok(made),
        None => rebuilt(alloc, rewriting, term),
    }
}

/// An expression whose parts are made anew.
#[cycle(expressions)]
fn rebuilt<R: Rewriting>(alloc: Global, rewriting: &R, term: &Term) -> Result<Term, AllocError>
    ensures { IfOk result (λ made. term_tree made ≡ rebuilt (R.rule rewriting.now) (term_tree term.now)) }
{
    match term {
        Term::Number(value, kind) => Ok(Term::Number(*value, *kind)),
        Term::Truth(value) => Ok(Term::Truth(*value)),
        Term::Variable(number) => Ok(Term::Variable(*number)),
        Term::Prefix(operator, width, operand) => {
            let operand = boxed(alloc, rewriting, operand)?;
            Ok(Term::Prefix(*operator, *width, operand))
        }
        Term::Binary(place, operator, width, left, right) => {
            let left = boxed(alloc, rewriting, left)?;
            let right = boxed(alloc, rewriting, right)?;
            Ok(Term::Binary(*place, *operator, *width, left, right))
        }
        Term::Rotate(width, operand, amount) => {
            let operand = boxed(alloc, rewriting, operand)?;
            Ok(Term::Rotate(*width, operand, *amount))
        }
        Term::Convert(kind, operand) => {
            let operand = boxed(alloc, rewriting, operand)?;
            Ok(Term::Convert(*kind, operand))
        }
        Term::Select(condition, accepted, otherwise) => {
            let condition = boxed(alloc, rewriting, condition)?;
            let accepted = boxed(alloc, rewriting, accepted)?;
            let otherwise = boxed(alloc, rewriting, otherwise)?;
            Ok(Term::Select(condition, accepted, otherwise))
        }
        Term::Element(place, array, size, index) => {
            let index = boxed(alloc, rewriting, index)?;
            Ok(Term::Element(*place, *array, *size, index))
        }
    }
}

/// An expression, in a box of its own.
#[cycle(expressions)]
fn boxed<R: Rewriting>(alloc: Global, rewriting: &R, term: &Term) -> Result<Box<Term>, AllocError>
    ensures { IfOk result (λ made. term_tree made.value ≡ rewritten (R.rule rewriting.now) (term_tree term.now)) }
{
    let made = rewritten(alloc, rewriting, term)?;
    Ok(Box::new(alloc, made)?)
}

/// Expressions, in their order.
pub fn all_rewritten<R: Rewriting>(
    alloc: Global,
    rewriting: &R,
    terms: &[Term],
) -> Result<Vec<Term>, AllocError>
    ensures { IfOk result (λ made.
        map term_tree made.items ≡ map (rewritten (R.rule rewriting.now)) (map term_tree terms.now)) }
{
    let mut made = Vec::new(alloc);
    for term in terms {
        made.push(rewritten(alloc, rewriting, term)?)?;
    }
    Ok(made)
}

/// An expression, where there is one.
pub fn rewritten_where_any<R: Rewriting>(
    alloc: Global,
    rewriting: &R,
    term: Option<&Term>,
) -> Result<Option<Term>, AllocError>
    ensures { IfOk result (λ made. option_map term_tree made
        ≡ option_map (rewritten (R.rule rewriting.now)) (option_map (λ term. term_tree term.now) term.entry)) }
{
    match term {
        Some(term) => Ok(Some(rewritten(alloc, rewriting, term)?)),
        None => Ok(None),
    }
}
