ghost use Rattle.std.specs.Prelude.{◌≡◌, ◌≢◌, ◌<◌, true, length, MatchOption};
ghost use Rattle.std.specs.List.{list_all, position};
ghost use Rattle.tokens.specs.declared.token.Keyword.{Keyword};
ghost use Rattle.tokens.specs.Spelling.{Spells, is_word_byte, keyword_text};
ghost use Rattle.tokens.specs.private.Splitting.{SplitsAtFirst, is_no_word_byte};

use crate::lexer::number::read_number;
use crate::lexer::piece::Piece;
use crate::{Keyword, TokenKind};

/// Whether a byte is a letter, a digit or `_`.
pub fn is_word_byte(byte: u8) -> bool
    ensures { result ≡ is_word_byte byte }
{
    byte.is_ascii_alphanumeric() || byte == b'_'
}

/// The longest run of letters, digits and `_` that a text begins with, and the rest.
pub fn split_word(text: &str) -> (&str, &str)
    ensures { SplitsAtFirst is_no_word_byte text.now result.0.now result.1.now }
{
    text.split_at(word_end(text.as_bytes()).unwrap_or(text.len()))
}

/// Where the first byte stands that no word has.
fn word_end(bytes: &[u8]) -> Option<usize>
    ensures { result ≡ position is_no_word_byte bytes.now }
{
    bytes.iter().position(|b| !is_word_byte(*b))
}

/// What a word is: a keyword, a name, a number or a bad one.
pub fn piece_of_word(word: &str) -> Piece
    requires some { 0 < length word.now }
    requires letters { list_all is_word_byte word.now ≡ true }
    ensures { Spells result word.now }
{
    if word.as_bytes()[0].is_ascii_digit() {
        match read_number(word) {
            Some((value, suffix)) => Piece::Token(TokenKind::Number(value, suffix)),
            None => Piece::BadNumber,
        }
    } else {
        match keyword_of(word) {
            Some(keyword) => Piece::Token(TokenKind::Keyword(keyword)),
            None => Piece::Token(TokenKind::Name),
        }
    }
}

/// The keyword that a word spells.
fn keyword_of(word: &str) -> Option<Keyword>
    ensures { MatchOption result
        ((keyword : Keyword) → word.now ≢ keyword_text keyword) (λ keyword. word.now ≡ keyword_text keyword) }
{
    match word {
        "export" => Some(Keyword::Export),
        "void" => Some(Keyword::Void),
        "public" => Some(Keyword::Public),
        "secret" => Some(Keyword::Secret),
        "mut" => Some(Keyword::Mut),
        "bool" => Some(Keyword::Bool),
        "uint8" => Some(Keyword::Uint8),
        "uint16" => Some(Keyword::Uint16),
        "uint32" => Some(Keyword::Uint32),
        "true" => Some(Keyword::True),
        "false" => Some(Keyword::False),
        "if" => Some(Keyword::If),
        "else" => Some(Keyword::Else),
        "for" => Some(Keyword::For),
        "from" => Some(Keyword::From),
        "to" => Some(Keyword::To),
        "return" => Some(Keyword::Return),
        "select" => Some(Keyword::Select),
        _ => None,
    }
}
