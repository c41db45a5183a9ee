// Which variables may be read as others.

ghost use Rattle.std.specs.Prelude.{◌≡◌, OnOk};
ghost use Rattle.optimisation.specs.Below.{term_tree};
ghost use Rattle.optimisation.specs.constants.private.Known.{words_of};
ghost use Rattle.optimisation.specs.constants.private.Simplification.{may_be_read_as, set_to, variable_of};

use crate::constants::known::{KnownWords, WordCopy};
use crate::constants::terms::constant_of;
use inline::{FlatVariable, Term};
use std::alloc::AllocError;
use straight_words::same_words::{are_alike, at};

/// Whether a variable that is set to another one may be read as that one.
fn may_be_read_as(declared: &[FlatVariable], variable: u32, source: u32) -> bool
    ensures { result ≡ may_be_read_as declared.now variable source }
{
    variable != source
        && are_alike(
            at(declared, variable as usize),
            at(declared, source as usize),
        )
}

/// What an expression is, where it is a variable.
pub fn variable_of(term: &Term) -> Option<u32>
    ensures { result ≡ variable_of (term_tree term.now) }
{
    match term {
        Term::Variable(number) => Some(*number),
        _ => None,
    }
}

/// From here on a variable has the value of an expression.
pub fn learn(
    declared: &[FlatVariable],
    known: &mut KnownWords,
    variable: u32,
    value: &Term,
) -> Result<(), AllocError>
    ensures { OnOk result (words_of known.new
        ≡ set_to declared.now (words_of known.old) None variable (term_tree value.now)) }
{
    known.note(variable, constant_of(value));
    match variable_of(value) {
        Some(source) => {
            if may_be_read_as(declared, variable, source) {
                known.note_copy(WordCopy { variable, source })
            } else {
                Ok(())
            }
        }
        None => Ok(()),
    }
}
