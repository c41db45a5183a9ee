ghost use Rattle.std.specs.Prelude.{◌≡◌};

use crate::{Kind, Profile, ValueType};

/// What an operator between two operands makes of them.
#[derive(Clone, Copy, Debug, PartialEq, Eq)]
pub enum Operation {
    /// A number of two numbers of one width.
    Arithmetic,
    /// The product of two numbers of one width.
    Multiplication,
    /// A number of two public numbers of one width.
    Division,
    /// A number of a number, and of a `uint32` by which it is shifted.
    Shift,
    /// A bool of two numbers of one width, or of two bools.
    Equality,
    /// A bool of two numbers of one width.
    Order,
    /// A bool of two bools.
    Logic,
}

impl Operation {
    ghost use Rattle.language.specs.ExprTyping.{divides_secret, is_uneven, multiplies_secret, operation_kind, takes};

    /// The kind of what it gives, by the kind of its first operand.
    pub fn result_kind(self, first: Kind) -> Kind
        ensures { result ≡ operation_kind self first }
    {
        match self {
            Operation::Arithmetic => first,
            Operation::Multiplication => first,
            Operation::Division => first,
            Operation::Shift => first,
            Operation::Equality => Kind::Boolean,
            Operation::Order => Kind::Boolean,
            Operation::Logic => Kind::Boolean,
        }
    }

    /// Whether the operands' widths do not go together.
    pub fn is_uneven(self, left: ValueType, right: ValueType) -> bool
        ensures { result ≡ is_uneven self left right }
    {
        match self {
            Operation::Arithmetic => left.differs_in_width(right),
            Operation::Multiplication => left.differs_in_width(right),
            Operation::Division => left.differs_in_width(right),
            Operation::Shift => right.is_narrow(),
            Operation::Equality => left.differs_in_width(right),
            Operation::Order => left.differs_in_width(right),
            Operation::Logic => false,
        }
    }

    /// Whether the operands are of the kinds that the operation takes.
    pub fn takes(self, left: ValueType, right: ValueType) -> bool
        ensures { result ≡ takes self left right }
    {
        match self {
            Operation::Arithmetic => left.is_numeric() && right.is_numeric(),
            Operation::Multiplication => left.is_numeric() && right.is_numeric(),
            Operation::Division => left.is_numeric() && right.is_numeric(),
            Operation::Shift => left.is_numeric() && right.is_numeric(),
            Operation::Equality => left.is_alike(right),
            Operation::Order => left.is_numeric() && right.is_numeric(),
            Operation::Logic => left.is_bool() && right.is_bool(),
        }
    }

    /// Whether it is a division of or by something secret.
    pub fn divides_secret(self, left: ValueType, right: ValueType) -> bool
        ensures { result ≡ divides_secret self left right }
    {
        match self {
            Operation::Division => left.is_hidden() || right.is_hidden(),
            Operation::Arithmetic => false,
            Operation::Multiplication => false,
            Operation::Shift => false,
            Operation::Equality => false,
            Operation::Order => false,
            Operation::Logic => false,
        }
    }

    /// Whether it is a product of something secret, where the observer sees the operands of
    /// multiplications.
    pub fn multiplies_secret(self, profile: Profile, left: ValueType, right: ValueType) -> bool
        ensures { result ≡ multiplies_secret profile self left right }
    {
        match profile {
            Profile::P1 => false,
            Profile::P2 => match self {
                Operation::Multiplication => left.is_hidden() || right.is_hidden(),
                Operation::Arithmetic => false,
                Operation::Division => false,
                Operation::Shift => false,
                Operation::Equality => false,
                Operation::Order => false,
                Operation::Logic => false,
            },
        }
    }
}
