ghost use Rattle.std.specs.Prelude.{◌≡◌, IfSome, IfNone};
ghost use Rattle.std.specs.List.{position};
ghost use Rattle.tokens.specs.Spelling.{is_blank, is_line_feed};
ghost use Rattle.tokens.specs.private.Splitting.{SplitsAtFirst};
ghost use Rattle.tokens.specs.Tokens.{BeginsWith, BeginsWithNone};

use crate::TokenKind;
use crate::lexer::letters::{is_word_byte, piece_of_word, split_word};
use crate::lexer::sign::{first_sign, spelling};

/// What a piece of a text is.
#[derive(Clone, Copy)]
pub enum Piece {
    /// A blank or a comment.
    Space,
    Token(TokenKind),
    /// A word that begins with a digit and is no number.
    BadNumber,
}

/// The piece that a text begins with, its spelling and the rest of the text. There is none at the
/// end of the text and at an unknown character.
pub fn split_piece(text: &str) -> Option<(Piece, &str, &str)>
    ensures none { IfNone result (BeginsWithNone text.now) }
    ensures found { IfSome result (λ r. BeginsWith text.now r.0 r.1.now r.2.now) }
{
    let first = *text.as_bytes().first()?;
    if is_blank(first) {
        let (blank, rest) = text.split_at(1);
        Some((Piece::Space, blank, rest))
    } else if is_word_byte(first) {
        let (word, rest) = split_word(text);
        Some((piece_of_word(word), word, rest))
    } else if text.as_bytes().starts_with(b"//") {
        let (comment, rest) = split_line(text);
        Some((Piece::Space, comment, rest))
    } else {
        let sign = first_sign(text)?;
        let (mark, rest) = text.split_at(spelling(sign).len());
        Some((Piece::Token(TokenKind::Sign(sign)), mark, rest))
    }
}

fn is_blank(byte: u8) -> bool
    ensures { result ≡ is_blank byte }
{
    byte == b' ' || byte == b'\t' || byte == b'\r' || byte == b'\n'
}

/// A text up to its first line feed, or all of it where there is none, and the rest.
fn split_line(text: &str) -> (&str, &str)
    ensures { SplitsAtFirst is_line_feed text.now result.0.now result.1.now }
{
    text.split_at(line_end(text.as_bytes()).unwrap_or(text.len()))
}

/// Where the first line feed stands.
fn line_end(bytes: &[u8]) -> Option<usize>
    ensures { result ≡ position is_line_feed bytes.now }
{
    bytes.iter().position(|b| *b == b'\n')
}
