// Expressions in which an element of an array that is split is a word.

use crate::element_words::parts::SplitArrays;
use crate::rewriting::Rewriting;
use inline::Term;
use std::alloc::{AllocError, Global};

/// Elements of arrays that are split, each with its word in its place.
impl Rewriting for SplitArrays {
    ghost use Rattle.straight_words.specs.element_words.private.Splitting.{word_instead};

    ghost rule = { λ parts. word_instead parts.arrays.items };

    fn instead(&self, _alloc: Global, term: &Term) -> Result<Option<Term>, AllocError> {
        match term {
            Term::Element(_, array, _, index) => match self.word(*array, index) {
                Some(word) => Ok(Some(Term::Variable(word))),
                None => Ok(None),
            },
            Term::Number(_, _)
            | Term::Truth(_)
            | Term::Variable(_)
            | Term::Prefix(_, _, _)
            | Term::Binary(_, _, _, _, _)
            | Term::Rotate(_, _, _)
            | Term::Convert(_, _)
            | Term::Select(_, _, _) => Ok(None),
        }
    }
}
