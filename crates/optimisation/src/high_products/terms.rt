// Expressions in which upper words of products are operators.

ghost use Rattle.std.specs.Prelude.{◌≡◌, IfOk};
ghost use Rattle.optimisation.specs.Below.{term_tree};
ghost use Rattle.optimisation.specs.high_products.private.Replacing.{product_of};

use crate::high_products::shapes::{Factors, upper_word};
use inline::Term;
use language::{BinaryOperator, Place};
use std::alloc::{AllocError, Global};
use straight_words::rewriting::Rewriting;
use word::Width;

/// The operator between two variables.
fn product(alloc: Global, place: Place, factors: Factors) -> Result<Term, AllocError>
    ensures { IfOk result (λ made. term_tree made ≡ product_of place factors) }
{
    let one = Box::new(alloc, Term::Variable(factors.one))?;
    let other = Box::new(alloc, Term::Variable(factors.other))?;
    Ok(Term::Binary(place, BinaryOperator::HighProduct, Width::W32, one, other))
}

/// Upper words of products, each with an operator in its place.
pub struct UpperWords;

impl Rewriting for UpperWords {
    ghost use Rattle.optimisation.specs.high_products.private.Replacing.{product_instead};

    ghost rule = { λ words. product_instead };

    fn instead(&self, alloc: Global, term: &Term) -> Result<Option<Term>, AllocError> {
        match term {
            Term::Binary(place, _, _, _, _) => match upper_word(term) {
                Some(factors) => Ok(Some(product(alloc, *place, factors)?)),
                None => Ok(None),
            },
            Term::Number(_, _)
            | Term::Truth(_)
            | Term::Variable(_)
            | Term::Prefix(_, _, _)
            | Term::Rotate(_, _, _)
            | Term::Convert(_, _)
            | Term::Select(_, _, _)
            | Term::Element(_, _, _, _) => Ok(None),
        }
    }
}
