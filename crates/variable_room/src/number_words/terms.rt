// Expressions in which numbers are words.

use crate::number_words::uses::TypedNumber;
use crate::number_words::words::{NumberWord, word_of};
use inline::Term;
use std::alloc::{AllocError, Global};
use straight_words::rewriting::Rewriting;

/// Numbers, each with its word in its place where it has one.
#[derive(Clone, Copy)]
pub struct Wording<'w> {
    pub words: &'w [NumberWord],
}

impl Rewriting for Wording<'_> {
    ghost use Rattle.variable_room.specs.number_words.private.Wording.{word_instead};

    ghost rule = { λ wording. word_instead wording.words.now };

    fn instead(&self, _alloc: Global, term: &Term) -> Result<Option<Term>, AllocError> {
        match term {
            Term::Number(value, kind) => {
                let number = TypedNumber {
                    value: *value,
                    kind: *kind,
                };
                match word_of(self.words, number) {
                    Some(variable) => Ok(Some(Term::Variable(variable))),
                    None => Ok(None),
                }
            }
            Term::Truth(_)
            | Term::Variable(_)
            | Term::Prefix(_, _, _)
            | Term::Binary(_, _, _, _, _)
            | Term::Rotate(_, _, _)
            | Term::Convert(_, _)
            | Term::Select(_, _, _)
            | Term::Element(_, _, _, _) => Ok(None),
        }
    }
}
