// What stands before the name of an export, as part of the name of its function.

ghost use Rattle.std.specs.Prelude.{◌≡◌, ◌≢◌, true, None, IfSome};
ghost use Rattle.std.specs.List.{list_all};
ghost use Rattle.functions.specs.Below.{is_word_byte};
ghost use Rattle.functions.specs.function_text.Prefixes.{is_prefix};

/// Whether a byte is a letter, a digit or `_`.
fn is_word_byte(byte: u8) -> bool
    ensures { result ≡ is_word_byte byte }
{
    byte.is_ascii_alphanumeric() || byte == b'_'
}

/// Whether a text is made of these.
fn is_word(text: &[u8]) -> bool
    ensures { result ≡ list_all is_word_byte text.now }
{
    text.iter().all(|byte| is_word_byte(*byte))
}

/// Whether a name may begin so: with nothing, or with letters, digits and `_`, of which the first is no digit.
#[tactic(auto, unfolding(crate::specs::function_text::Prefixes::is_prefix))]
fn is_prefix(text: &[u8]) -> bool
    ensures { result ≡ is_prefix text.now }
{
    match text {
        [] => true,
        [first, ..] => !first.is_ascii_digit() && is_word(text),
    }
}

/// What is put before the name of an export: nothing, or what a name of a source may be.
#[derive(Clone, Copy, Debug)]
pub struct Prefix<'a> {
    pub text: &'a str,
    ghost begins: { is_prefix text.now ≡ true },
}

impl<'a> Prefix<'a> {
    /// The prefix of this text, where a name may begin so.
    pub fn new(text: &'a str) -> Option<Self>
        ensures is { IfSome result (λ prefix. prefix.text.now ≡ text.now) }
        ensures only { is_prefix text.now ≡ true → result ≢ None }
    {
        if is_prefix(text.as_bytes()) {
            Some(Prefix { text })
        } else {
            None
        }
    }
}
