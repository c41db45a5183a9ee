// The words that numbers become.

ghost use Rattle.std.specs.Prelude.{◌≡◌};
ghost use Rattle.variable_room.specs.number_words.private.Wording.{word_of};

use crate::number_words::uses::{TypedNumber, same_number};

/// A number, and the variable of the word that holds it.
#[derive(Clone, Copy)]
pub struct NumberWord {
    pub number: TypedNumber,
    pub variable: u32,
}

/// The variable of a number that is a word.
pub fn word_of(words: &[NumberWord], number: TypedNumber) -> Option<u32>
    ensures { result ≡ word_of number words.now }
{
    for each in words {
        if same_number(each.number, number) {
            return Some(each.variable);
        }
    }
    None
}
