// Which habit of C stands where a token is unexpected, and what to write instead.
//
// It promises that it is the first habit of a table that fits the tokens around the place (`specs/habits/Habits.antt`).
// The tokens are those that `syntax` reads in the source.

mod advice;
mod spots;
mod table;

ghost use Rattle.std.specs.Prelude.{map, IfOk};
ghost use Rattle.std.specs.Option.{option_map};
ghost use Rattle.explanations.specs.habits.Habits.{Advises};

use crate::habits::spots::spot_around;
use crate::habits::table::advice_for;
use std::alloc::{AllocError, Global};
use syntax::lex;

/// What to write instead of a habit of C that stands behind so many bytes of a source.
pub(crate) fn advice_at(
    alloc: Global,
    source: &str,
    at: u32,
) -> Result<Option<&'static str>, AllocError>
    ensures { IfOk result (λ advice. Advises source.now at (option_map (λ text. text.now) advice)) }
{
    match lex(alloc, source) {
        Ok(lexed) => {
            let spot = spot_around(lexed.tokens.as_slice(), at);
            Ok(advice_for(&spot))
        }
        Err(refusal) => match refusal.place {
            Some(_) => Ok(None),
            None => Err(AllocError),
        },
    }
}
