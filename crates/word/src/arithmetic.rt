// Sums, products, quotients, and words of one width made from another.

ghost use Rattle.std.specs.Prelude.{◌≡◌, ◌≢◌};
ghost use Rattle.word.specs.Operators.{wrapped, sum, difference, product, quotient, remainder, negated, converted};

use crate::width::Width;

/// A number modulo 2^w.
pub fn wrap(width: Width, number: u64) -> u32
    ensures { result ≡ wrapped width number }
{
    (number % (1 << width.bits())) as u32
}

/// `a + b`, which wraps.
pub fn add(width: Width, a: u32, b: u32) -> u32
    ensures { result ≡ sum width a b }
{
    wrap(width, u64::from(a) + u64::from(b))
}

/// `a - b`, which wraps.
pub fn subtract(width: Width, a: u32, b: u32) -> u32
    ensures { result ≡ difference width a b }
{
    wrap(width, u64::from(a.wrapping_sub(b)))
}

/// `a * b`, which wraps.
pub fn multiply(width: Width, a: u32, b: u32) -> u32
    ensures { result ≡ product width a b }
{
    wrap(width, u64::from(a) * u64::from(b))
}

/// `a / b`.
pub fn divide(a: u32, b: u32) -> u32
    requires { b ≢ 0 }
    ensures { result ≡ quotient a b }
{
    a / b
}

/// `a % b`.
pub fn remainder(a: u32, b: u32) -> u32
    requires { b ≢ 0 }
    ensures { result ≡ remainder a b }
{
    a % b
}

/// `-a`, which wraps.
pub fn negate(width: Width, a: u32) -> u32
    ensures { result ≡ negated width a }
{
    wrap(width, u64::from(a.wrapping_neg()))
}

/// The word of a width that a word of any width is converted to: cut, or extended with 0.
pub fn convert(width: Width, a: u32) -> u32
    ensures { result ≡ converted width a }
{
    wrap(width, u64::from(a))
}
