// Operators on the bits of words.

ghost use Rattle.std.specs.Prelude.{◌≡◌, bit_and, bit_or, bit_xor};
ghost use Rattle.word.specs.Operators.{complemented, shifted_left, shifted_right, rotated_left};

use crate::arithmetic::{convert, wrap};
use crate::width::Width;

/// `a & b`.
pub fn bit_and(a: u32, b: u32) -> u32
    ensures { result ≡ bit_and a b }
{
    a & b
}

/// `a | b`.
pub fn bit_or(a: u32, b: u32) -> u32
    ensures { result ≡ bit_or a b }
{
    a | b
}

/// `a ^ b`.
pub fn bit_xor(a: u32, b: u32) -> u32
    ensures { result ≡ bit_xor a b }
{
    a ^ b
}

/// `~a`: each bit of the width flipped.
pub fn complement(width: Width, a: u32) -> u32
    ensures { result ≡ complemented width a }
{
    wrap(width, u64::from(!a))
}

/// `a << amount`, cut to the width. The amount is taken modulo 32, whatever the width.
pub fn shift_left(width: Width, a: u32, amount: u32) -> u32
    ensures { result ≡ shifted_left width a amount }
{
    wrap(width, u64::from(a) << (amount % 32))
}

/// `a >> amount`, filled with 0. The amount is taken modulo 32, whatever the width.
pub fn shift_right(width: Width, a: u32, amount: u32) -> u32
    ensures { result ≡ shifted_right width a amount }
{
    wrap(width, u64::from(a >> (amount % 32)))
}

/// `a <<< amount`: the bits that leave at the width's top come in at the bottom.
pub fn rotate_left(width: Width, a: u32, amount: u32) -> u32
    ensures { result ≡ rotated_left width a amount }
{
    let bits = width.bits();
    let word = u64::from(convert(width, a));
    let amount = amount % bits;
    wrap(width, word << amount | word >> (bits - amount))
}
