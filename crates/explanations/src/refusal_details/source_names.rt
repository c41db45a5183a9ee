// Names as they stand in a source.

ghost use Rattle.std.specs.Prelude.{◌≡◌};
ghost use Rattle.std.specs.List.{prefix_len, take_while};
ghost use Rattle.explanations.specs.refusal_details.TypeLines.{name_at};
ghost use Rattle.explanations.specs.Below.{is_word_byte};

use language::Place;

/// The name that stands at a place of a source: nothing where none begins there.
pub fn name_at(source: &str, place: Place) -> &str
    ensures { result.now ≡ name_at source.now place }
{
    match source.split_at_checked(place.offset as usize) {
        Some((_, rest)) => first_word(rest),
        None => "",
    }
}

/// The letters, digits and `_` that a text begins with.
fn first_word(text: &str) -> &str
    ensures { result.now ≡ take_while is_word_byte text.now }
{
    &text[..word_length(text.as_bytes())]
}

/// How many letters, digits and `_` there are before any other byte.
fn word_length(bytes: &[u8]) -> usize
    ensures { result ≡ prefix_len is_word_byte bytes.now }
{
    bytes.iter().take_while(|byte| is_word_byte(**byte)).count()
}

/// Whether a byte is a letter, a digit or `_`.
fn is_word_byte(byte: u8) -> bool
    ensures { result ≡ is_word_byte byte }
{
    byte.is_ascii_alphanumeric() || byte == b'_'
}
