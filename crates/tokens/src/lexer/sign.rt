ghost use Rattle.std.specs.Prelude.{ℕ, ◌≡◌, nat_eq};
ghost use Rattle.std.specs.List.{find, starts_with};
ghost use Rattle.tokens.specs.Spelling.{sign_text};

use crate::Sign;

/// The signs, a longer one before each that it begins with.
const SIGNS: [Sign; 30] = [
    Sign::RotateLeft,
    Sign::ShiftLeft,
    Sign::ShiftRight,
    Sign::AtMost,
    Sign::AtLeast,
    Sign::Equals,
    Sign::Differs,
    Sign::AndAlso,
    Sign::OrElse,
    Sign::OpenRound,
    Sign::CloseRound,
    Sign::OpenCurly,
    Sign::CloseCurly,
    Sign::OpenSquare,
    Sign::CloseSquare,
    Sign::Comma,
    Sign::Semicolon,
    Sign::Assign,
    Sign::Plus,
    Sign::Minus,
    Sign::Star,
    Sign::Slash,
    Sign::Percent,
    Sign::Ampersand,
    Sign::Bar,
    Sign::Caret,
    Sign::Tilde,
    Sign::Bang,
    Sign::Below,
    Sign::Above,
];

/// The longest sign that a text begins with.
pub fn first_sign(text: &str) -> Option<Sign>
    ensures { result ≡ find (λ sign. starts_with nat_eq text.now (sign_text sign)) SIGNS }
{
    let bytes = text.as_bytes();
    SIGNS
        .iter()
        .copied()
        .find(|sign| bytes.starts_with(spelling(*sign).as_bytes()))
}

/// How a sign is written.
pub fn spelling(sign: Sign) -> &'static str
    ensures { result.now ≡ sign_text sign }
{
    match sign {
        Sign::RotateLeft => "<<<",
        Sign::ShiftLeft => "<<",
        Sign::ShiftRight => ">>",
        Sign::AtMost => "<=",
        Sign::AtLeast => ">=",
        Sign::Equals => "==",
        Sign::Differs => "!=",
        Sign::AndAlso => "&&",
        Sign::OrElse => "||",
        Sign::OpenRound => "(",
        Sign::CloseRound => ")",
        Sign::OpenCurly => "{",
        Sign::CloseCurly => "}",
        Sign::OpenSquare => "[",
        Sign::CloseSquare => "]",
        Sign::Comma => ",",
        Sign::Semicolon => ";",
        Sign::Assign => "=",
        Sign::Plus => "+",
        Sign::Minus => "-",
        Sign::Star => "*",
        Sign::Slash => "/",
        Sign::Percent => "%",
        Sign::Ampersand => "&",
        Sign::Bar => "|",
        Sign::Caret => "^",
        Sign::Tilde => "~",
        Sign::Bang => "!",
        Sign::Below => "<",
        Sign::Above => ">",
    }
}
