ghost use Rattle.std.specs.Prelude.{ℕ, ◌≡◌, ◌≢◌, ◌<◌, ◌^◌, true, Option, IfSome, IfNone, MatchOption};
ghost use Rattle.std.specs.List.{list_all, position};
ghost use Rattle.tokens.specs.declared.token.Suffix.{Suffix};
ghost use Rattle.tokens.specs.Spelling.{IsNumber, WritesValue, is_word_byte, suffix_text};
ghost use Rattle.tokens.specs.private.Splitting.{SplitsAtFirst, is_suffix_letter};

use crate::Suffix;

/// The value of a number and its suffix, where a word is a number.
pub fn read_number(word: &str) -> Option<(u32, Option<Suffix>)>
    requires { list_all is_word_byte word.now ≡ true }
    ensures none { IfNone result ((value : ℕ) (suffix : Option Suffix) → IsNumber word.now value suffix → ⊥) }
    ensures found { IfSome result (λ r. IsNumber word.now r.0 r.1) }
{
    let (digits, tail) = split_digits(word);
    let suffix = suffix_of(tail)?;
    let value = read_digits(digits)?;
    Some((value, suffix))
}

/// A word up to its first `u`, or all of it where there is none, and the rest.
fn split_digits(word: &str) -> (&str, &str)
    ensures { SplitsAtFirst is_suffix_letter word.now result.0.now result.1.now }
{
    word.split_at(suffix_at(word.as_bytes()).unwrap_or(word.len()))
}

/// Where the first `u` stands.
fn suffix_at(bytes: &[u8]) -> Option<usize>
    ensures { result ≡ position is_suffix_letter bytes.now }
{
    bytes.iter().position(|b| *b == b'u')
}

/// The suffix that the end of a number spells.
fn suffix_of(tail: &str) -> Option<Option<Suffix>>
    ensures { MatchOption result
        ((suffix : Option Suffix) → tail.now ≢ suffix_text suffix) (λ suffix. tail.now ≡ suffix_text suffix) }
{
    match tail {
        "" => Some(None),
        "u8" => Some(Some(Suffix::U8)),
        "u16" => Some(Some(Suffix::U16)),
        "u32" => Some(Some(Suffix::U32)),
        _ => None,
    }
}

/// The value below 2^32 that decimal digits write, or `0x` and hexadecimal digits.
fn read_digits(digits: &str) -> Option<u32>
    requires { list_all is_word_byte digits.now ≡ true }
    ensures none { IfNone result ((value : ℕ) → WritesValue digits.now value → value < 2 ^ 32 → ⊥) }
    ensures found { IfSome result (WritesValue digits.now) }
{
    match digits.strip_prefix("0x") {
        Some(hexadecimal) => u32::from_str_radix(hexadecimal, 16).ok(),
        None => u32::from_str_radix(digits, 10).ok(),
    }
}
