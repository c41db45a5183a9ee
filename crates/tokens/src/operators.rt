ghost use Rattle.std.specs.Prelude.{◌≡◌, ◌<◌};
ghost use Rattle.tokens.specs.Operators.{prefix_of as prefix_that, operator_of as operator_that};
ghost use Rattle.tokens.specs.Operators.{level_of as level_that, left_level_of as left_level_that};
ghost use Rattle.tokens.specs.Operators.{conversion_of as conversion_that, suffix_kind as suffix_that};
ghost use Rattle.tokens.specs.Operators.{begins_of as begins_that, link_of as link_that, link_level};
ghost use Rattle.tokens.specs.Operators.{link_left_level};

use crate::{BinaryOperator, Keyword, Kind, PrefixOperator, Sign, Suffix, TokenKind};

/// No operator between operands binds as strongly.
pub const OPERAND_LEVEL: u8 = 11;

/// How strongly a sign before an operand binds.
pub const PREFIX_LEVEL: u8 = 10;

/// How strongly a rotation binds: as the shifts do.
const ROTATION_LEVEL: u8 = 7;

/// How an operand begins.
#[derive(Clone, Copy)]
pub enum OperandStart {
    Number(u32, Option<Suffix>),
    Truth(bool),
    Name,
    Bracket,
    Prefix(PrefixOperator),
    Conversion(Kind),
    Select,
}

/// What a sign between operands is.
#[derive(Clone, Copy)]
pub enum Link {
    Operator(BinaryOperator),
    Rotation,
}

/// The kind of number that a suffix names.
pub fn suffix_kind(suffix: Option<Suffix>) -> Kind
    ensures { result ≡ suffix_that suffix }
{
    match suffix {
        Some(Suffix::U8) => Kind::Uint8,
        Some(Suffix::U16) => Kind::Uint16,
        Some(Suffix::U32) | None => Kind::Uint32,
    }
}

/// The kind of number that a keyword converts to.
fn conversion_of(kind: TokenKind) -> Option<Kind>
    ensures { result ≡ conversion_that kind }
{
    match kind {
        TokenKind::Keyword(Keyword::Uint8) => Some(Kind::Uint8),
        TokenKind::Keyword(Keyword::Uint16) => Some(Kind::Uint16),
        TokenKind::Keyword(Keyword::Uint32) => Some(Kind::Uint32),
        _ => None,
    }
}

/// The operator that a sign before an operand is.
fn prefix_of(kind: TokenKind) -> Option<PrefixOperator>
    ensures { result ≡ prefix_that kind }
{
    match kind {
        TokenKind::Sign(Sign::Bang) => Some(PrefixOperator::Not),
        TokenKind::Sign(Sign::Tilde) => Some(PrefixOperator::Complement),
        TokenKind::Sign(Sign::Minus) => Some(PrefixOperator::Negate),
        _ => None,
    }
}

/// How an operand that begins with such a token begins.
pub fn begins_of(kind: TokenKind) -> Option<OperandStart>
    ensures { result ≡ begins_that kind }
{
    match kind {
        TokenKind::Number(value, suffix) => Some(OperandStart::Number(value, suffix)),
        TokenKind::Keyword(Keyword::True) => Some(OperandStart::Truth(true)),
        TokenKind::Keyword(Keyword::False) => Some(OperandStart::Truth(false)),
        TokenKind::Keyword(Keyword::Select) => Some(OperandStart::Select),
        TokenKind::Keyword(_) => conversion_of(kind).map(OperandStart::Conversion),
        TokenKind::Name => Some(OperandStart::Name),
        TokenKind::Sign(Sign::OpenRound) => Some(OperandStart::Bracket),
        TokenKind::Sign(_) => prefix_of(kind).map(OperandStart::Prefix),
    }
}

/// The operator that a sign between two operands is.
fn operator_of(kind: TokenKind) -> Option<BinaryOperator>
    ensures { result ≡ operator_that kind }
{
    match kind {
        TokenKind::Sign(Sign::OrElse) => Some(BinaryOperator::LogicalOr),
        TokenKind::Sign(Sign::AndAlso) => Some(BinaryOperator::LogicalAnd),
        TokenKind::Sign(Sign::Equals) => Some(BinaryOperator::Equal),
        TokenKind::Sign(Sign::Differs) => Some(BinaryOperator::Unequal),
        TokenKind::Sign(Sign::Below) => Some(BinaryOperator::Less),
        TokenKind::Sign(Sign::AtMost) => Some(BinaryOperator::LessOrEqual),
        TokenKind::Sign(Sign::Above) => Some(BinaryOperator::Greater),
        TokenKind::Sign(Sign::AtLeast) => Some(BinaryOperator::GreaterOrEqual),
        TokenKind::Sign(Sign::Bar) => Some(BinaryOperator::BitOr),
        TokenKind::Sign(Sign::Caret) => Some(BinaryOperator::BitXor),
        TokenKind::Sign(Sign::Ampersand) => Some(BinaryOperator::BitAnd),
        TokenKind::Sign(Sign::ShiftLeft) => Some(BinaryOperator::ShiftLeft),
        TokenKind::Sign(Sign::ShiftRight) => Some(BinaryOperator::ShiftRight),
        TokenKind::Sign(Sign::Plus) => Some(BinaryOperator::Add),
        TokenKind::Sign(Sign::Minus) => Some(BinaryOperator::Subtract),
        TokenKind::Sign(Sign::Star) => Some(BinaryOperator::Multiply),
        TokenKind::Sign(Sign::Slash) => Some(BinaryOperator::Divide),
        TokenKind::Sign(Sign::Percent) => Some(BinaryOperator::Remainder),
        _ => None,
    }
}

/// What a sign between operands is.
pub fn link_of(kind: TokenKind) -> Option<Link>
    ensures { result ≡ link_that kind }
{
    match kind {
        TokenKind::Sign(Sign::RotateLeft) => Some(Link::Rotation),
        _ => operator_of(kind).map(Link::Operator),
    }
}

/// How strongly an operator binds.
pub fn level_of(operator: BinaryOperator) -> u8
    ensures value { result ≡ level_that operator }
    ensures small { result < PREFIX_LEVEL }
{
    match operator {
        BinaryOperator::LogicalOr => 1,
        BinaryOperator::LogicalAnd => 2,
        BinaryOperator::Equal
        | BinaryOperator::Unequal
        | BinaryOperator::Less
        | BinaryOperator::LessOrEqual
        | BinaryOperator::Greater
        | BinaryOperator::GreaterOrEqual => 3,
        BinaryOperator::BitOr => 4,
        BinaryOperator::BitXor => 5,
        BinaryOperator::BitAnd => 6,
        BinaryOperator::ShiftLeft | BinaryOperator::ShiftRight => 7,
        BinaryOperator::Add | BinaryOperator::Subtract => 8,
        BinaryOperator::Multiply
        | BinaryOperator::Divide
        | BinaryOperator::Remainder
        | BinaryOperator::HighProduct => 9,
    }
}

/// How strongly the left operand has to bind. Comparisons do not group.
fn left_level_of(operator: BinaryOperator) -> u8
    ensures { result ≡ left_level_that operator }
{
    match operator {
        BinaryOperator::Equal
        | BinaryOperator::Unequal
        | BinaryOperator::Less
        | BinaryOperator::LessOrEqual
        | BinaryOperator::Greater
        | BinaryOperator::GreaterOrEqual => 4,
        _ => level_of(operator),
    }
}

impl Link {
    /// How strongly the sign binds.
    pub fn level(self) -> u8
        ensures { result ≡ link_level self }
    {
        match self {
            Link::Operator(operator) => level_of(operator),
            Link::Rotation => ROTATION_LEVEL,
        }
    }

    /// How strongly its left operand has to bind.
    pub fn left_level(self) -> u8
        ensures { result ≡ link_left_level self }
    {
        match self {
            Link::Operator(operator) => left_level_of(operator),
            Link::Rotation => ROTATION_LEVEL,
        }
    }
}
