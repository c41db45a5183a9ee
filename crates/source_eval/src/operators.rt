// What the operators make of words.

ghost use Rattle.std.specs.Prelude.{◌≡◌, ◌==◌, ◌&&◌, IfOk, IfErr, if◌then◌else◌};
ghost use Rattle.source_eval.specs.Below.{divides, faults, gives};
ghost use Rattle.language.specs.OperatorWords.{binary_word, converted_word, prefix_word, rotated_word, selected_word};
ghost use Rattle.source_eval.specs.Metering.{IsFault};
ghost use Rattle.source_eval.specs.Views.{word_of};

use crate::EvalFault;
use crate::values::Word;
use language::{BinaryOperator, Kind, Place, PrefixOperator, is_true};

/// The word between two operands, at the operator's place.
pub fn binary(place: Place, operator: BinaryOperator, a: Word, b: Word) -> Result<Word, EvalFault>
    ensures ok { IfOk result (λ w. (if divides operator && (b.value == 0)
        then faults place
        else gives (binary_word operator (word_of a) (word_of b)))
        ≡ gives (word_of w)) }
    ensures err { IfErr result (IsFault (if divides operator && (b.value == 0)
        then faults place
        else gives (binary_word operator (word_of a) (word_of b)))) }
{
    if operator.divides() && b.value == 0 {
        return Err(EvalFault::NoMeaning(place));
    }
    Ok(Word {
        kind: operator.result_kind(a.kind),
        value: operator.apply(a.kind.width(), a.value, b.value),
    })
}

/// The word behind a sign.
pub fn prefix(operator: PrefixOperator, a: Word) -> Word
    ensures { word_of result ≡ prefix_word operator (word_of a) }
{
    Word {
        kind: a.kind,
        value: operator.apply(a.kind.width(), a.value),
    }
}

/// A word rotated to the left.
pub fn rotate(a: Word, amount: u32) -> Word
    ensures { word_of result ≡ rotated_word amount (word_of a) }
{
    Word {
        kind: a.kind,
        value: word::rotate_left(a.kind.width(), a.value, amount),
    }
}

/// A word made one of this kind of number.
pub fn convert(kind: Kind, a: Word) -> Word
    ensures { word_of result ≡ converted_word kind (word_of a) }
{
    Word {
        kind,
        value: word::convert(kind.width(), a.value),
    }
}

/// The one word where the condition is true, else the other.
pub fn select(condition: Word, accepted: Word, otherwise: Word) -> Word
    ensures { word_of result ≡ selected_word (word_of condition) (word_of accepted) (word_of otherwise) }
{
    if is_true(condition.value) {
        accepted
    } else {
        otherwise
    }
}
