use crate::Place;

/// A word with a meaning of its own.
#[derive(Clone, Copy, PartialEq, Eq)]
pub enum Keyword {
    Export,
    Void,
    Public,
    Secret,
    Mut,
    Bool,
    Uint8,
    Uint16,
    Uint32,
    True,
    False,
    If,
    Else,
    For,
    From,
    To,
    Return,
    Select,
}

/// A sign.
#[derive(Clone, Copy, PartialEq, Eq)]
pub enum Sign {
    /// `<<<`
    RotateLeft,
    /// `<<`
    ShiftLeft,
    /// `>>`
    ShiftRight,
    /// `<=`
    AtMost,
    /// `>=`
    AtLeast,
    /// `==`
    Equals,
    /// `!=`
    Differs,
    /// `&&`
    AndAlso,
    /// `||`
    OrElse,
    /// `(`
    OpenRound,
    /// `)`
    CloseRound,
    /// `{`
    OpenCurly,
    /// `}`
    CloseCurly,
    /// `[`
    OpenSquare,
    /// `]`
    CloseSquare,
    /// `,`
    Comma,
    /// `;`
    Semicolon,
    /// `=`
    Assign,
    /// `+`
    Plus,
    /// `-`
    Minus,
    /// `*`
    Star,
    /// `/`
    Slash,
    /// `%`
    Percent,
    /// `&`
    Ampersand,
    /// `|`
    Bar,
    /// `^`
    Caret,
    /// `~`
    Tilde,
    /// `!`
    Bang,
    /// `<`
    Below,
    /// `>`
    Above,
}

/// The type that a number's suffix names.
#[derive(Clone, Copy, PartialEq, Eq)]
pub enum Suffix {
    U8,
    U16,
    U32,
}

/// What a token is.
#[derive(Clone, Copy, PartialEq, Eq)]
pub enum TokenKind {
    Keyword(Keyword),
    Name,
    /// A number's value and its suffix, where it has one.
    Number(u32, Option<Suffix>),
    Sign(Sign),
}

/// A token of a text.
#[derive(Clone, Copy)]
pub struct Token<'a> {
    pub kind: TokenKind,
    /// Where it begins.
    pub place: Place,
    /// Its spelling, a slice of the text.
    pub text: &'a str,
}
