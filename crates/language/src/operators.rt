// The operators: what each makes of words, and which of them stand for one another.

ghost use Rattle.std.specs.Prelude.{◌≡◌};
ghost use Rattle.language.specs.Operators.{high_product, truth_of};

use crate::{Kind, Operation};
use word::Width;

/// A sign before an operand.
#[derive(Clone, Copy, Debug, PartialEq, Eq)]
pub enum PrefixOperator {
    /// `!`
    Not,
    /// `~`
    Complement,
    /// `-`
    Negate,
}

/// An operator between two operands.
#[derive(Clone, Copy, Debug, PartialEq, Eq)]
pub enum BinaryOperator {
    /// `||`
    LogicalOr,
    /// `&&`
    LogicalAnd,
    /// `==`
    Equal,
    /// `!=`
    Unequal,
    /// `<`
    Less,
    /// `<=`
    LessOrEqual,
    /// `>`
    Greater,
    /// `>=`
    GreaterOrEqual,
    /// `|`
    BitOr,
    /// `^`
    BitXor,
    /// `&`
    BitAnd,
    /// `<<`
    ShiftLeft,
    /// `>>`
    ShiftRight,
    Add,
    Subtract,
    Multiply,
    Divide,
    Remainder,
    /// The upper word of the product of two words. No sign stands for it: better code has it where a source makes the
    /// same of halves.
    HighProduct,
}

/// Whether a bool is true.
pub fn is_true(value: u32) -> bool
    ensures { result ≡ truth_of value }
{
    value != 0
}

/// The upper word of the product of two words.
fn high_product(a: u32, b: u32) -> u32
    ensures { result ≡ high_product a b }
{
    ((u64::from(a) * u64::from(b)) >> 32) as u32
}

impl PrefixOperator {
    ghost use Rattle.language.specs.Operators.{prefix_value};

    /// The value of the operator on an operand of this width.
    pub fn apply(self, width: Width, operand: u32) -> u32
        ensures { result ≡ prefix_value self width operand }
    {
        match self {
            PrefixOperator::Not => word::from_bool(word::not(is_true(operand))),
            PrefixOperator::Complement => word::complement(width, operand),
            PrefixOperator::Negate => word::negate(width, operand),
        }
    }
}

impl BinaryOperator {
    ghost use Rattle.std.specs.Prelude.{◌≢◌, true};
    ghost use Rattle.language.specs.ExprTyping.{operation_kind};
    ghost use Rattle.language.specs.Operators.{divides, operated, operation_of, opposite_of, swapped_of};

    /// What it makes of its operands.
    pub fn operation(self) -> Operation
        ensures { result ≡ operation_of self }
    {
        match self {
            BinaryOperator::LogicalOr => Operation::Logic,
            BinaryOperator::LogicalAnd => Operation::Logic,
            BinaryOperator::Equal => Operation::Equality,
            BinaryOperator::Unequal => Operation::Equality,
            BinaryOperator::Less => Operation::Order,
            BinaryOperator::LessOrEqual => Operation::Order,
            BinaryOperator::Greater => Operation::Order,
            BinaryOperator::GreaterOrEqual => Operation::Order,
            BinaryOperator::BitOr => Operation::Arithmetic,
            BinaryOperator::BitXor => Operation::Arithmetic,
            BinaryOperator::BitAnd => Operation::Arithmetic,
            BinaryOperator::ShiftLeft => Operation::Shift,
            BinaryOperator::ShiftRight => Operation::Shift,
            BinaryOperator::Add => Operation::Arithmetic,
            BinaryOperator::Subtract => Operation::Arithmetic,
            BinaryOperator::Multiply => Operation::Multiplication,
            BinaryOperator::Divide => Operation::Division,
            BinaryOperator::Remainder => Operation::Division,
            BinaryOperator::HighProduct => Operation::Multiplication,
        }
    }

    /// The kind of what it gives, by the kind of its left operand.
    pub fn result_kind(self, left: Kind) -> Kind
        ensures { result ≡ operation_kind (operation_of self) left }
    {
        self.operation().result_kind(left)
    }

    /// Whether it makes a quotient or a remainder, which a divisor 0 does not have.
    pub fn divides(self) -> bool
        ensures { result ≡ divides self }
    {
        matches!(self, BinaryOperator::Divide | BinaryOperator::Remainder)
    }

    /// The value between two operands, the left of this width. A quotient or a remainder by 0 has none.
    pub fn apply(self, width: Width, a: u32, b: u32) -> u32
        requires { divides self ≡ true → b ≢ 0 }
        ensures { result ≡ operated self width a b }
    {
        match self {
            BinaryOperator::LogicalOr => word::from_bool(word::or(is_true(a), is_true(b))),
            BinaryOperator::LogicalAnd => word::from_bool(word::and(is_true(a), is_true(b))),
            BinaryOperator::Equal => word::from_bool(word::equal(a, b)),
            BinaryOperator::Unequal => word::from_bool(word::unequal(a, b)),
            BinaryOperator::Less => word::from_bool(word::less(a, b)),
            BinaryOperator::LessOrEqual => word::from_bool(word::at_most(a, b)),
            BinaryOperator::Greater => word::from_bool(word::greater(a, b)),
            BinaryOperator::GreaterOrEqual => word::from_bool(word::at_least(a, b)),
            BinaryOperator::BitOr => word::bit_or(a, b),
            BinaryOperator::BitXor => word::bit_xor(a, b),
            BinaryOperator::BitAnd => word::bit_and(a, b),
            BinaryOperator::ShiftLeft => word::shift_left(width, a, b),
            BinaryOperator::ShiftRight => word::shift_right(width, a, b),
            BinaryOperator::Add => word::add(width, a, b),
            BinaryOperator::Subtract => word::subtract(width, a, b),
            BinaryOperator::Multiply => word::multiply(width, a, b),
            BinaryOperator::Divide => word::divide(a, b),
            BinaryOperator::Remainder => word::remainder(a, b),
            BinaryOperator::HighProduct => high_product(a, b),
        }
    }

    /// The comparison that holds exactly where this one does not.
    pub fn opposite(self) -> Option<Self>
        ensures { result ≡ opposite_of self }
    {
        match self {
            BinaryOperator::Equal => Some(BinaryOperator::Unequal),
            BinaryOperator::Unequal => Some(BinaryOperator::Equal),
            BinaryOperator::Less => Some(BinaryOperator::GreaterOrEqual),
            BinaryOperator::LessOrEqual => Some(BinaryOperator::Greater),
            BinaryOperator::Greater => Some(BinaryOperator::LessOrEqual),
            BinaryOperator::GreaterOrEqual => Some(BinaryOperator::Less),
            _ => None,
        }
    }

    /// The operator that makes the same of two numbers swapped, where there is one and neither of them is shown.
    pub fn swapped(self) -> Option<Self>
        ensures { result ≡ swapped_of self }
    {
        match self {
            BinaryOperator::Less => Some(BinaryOperator::Greater),
            BinaryOperator::LessOrEqual => Some(BinaryOperator::GreaterOrEqual),
            BinaryOperator::Greater => Some(BinaryOperator::Less),
            BinaryOperator::GreaterOrEqual => Some(BinaryOperator::LessOrEqual),
            BinaryOperator::Equal
            | BinaryOperator::Unequal
            | BinaryOperator::BitOr
            | BinaryOperator::BitXor
            | BinaryOperator::BitAnd
            | BinaryOperator::Add => Some(self),
            _ => None,
        }
    }
}
