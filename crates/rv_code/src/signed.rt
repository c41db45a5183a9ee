// Words as numbers with a sign, in two's complement.

ghost use Rattle.std.specs.Prelude.{◌≡◌, ◌≢◌, ◌+◌, ◌-◌, ◌*◌, ◌^◌, ◌<◌, ◌≤◌, ◌*ℤ◌, unsigned_abs, nat_lt, int_le};
ghost use Rattle.std.specs.Prelude.{int_div, int_rem, if◌then◌else◌};
ghost use Rattle.rv_code.specs.Signed.{signed, word_for, high_word, signed_less, shifted_signed};

/// Whether `a` is less than `b`.
#[inline(always)]
pub(crate) fn less(a: u32, b: u32) -> bool
    ensures { result ≡ signed_less a b }
{
    a.cast_signed() < b.cast_signed()
}

/// Whether `a` is at least `b`.
#[inline(always)]
pub(crate) fn at_least(a: u32, b: u32) -> bool
    ensures { result ≡ int_le (signed b) (signed a) }
{
    a.cast_signed() >= b.cast_signed()
}

/// `a` moved to the right by the amount modulo 32, with copies of its sign moved in.
#[inline(always)]
pub(crate) fn shift_right(a: u32, amount: u32) -> u32
    ensures { result ≡ shifted_signed a amount }
{
    (a.cast_signed() >> (amount % 32)).cast_unsigned()
}

/// The quotient rounded toward zero. That of -2^31 by -1 wraps.
#[inline(always)]
pub(crate) fn divide(a: u32, b: u32) -> u32
    requires { b ≢ 0 }
    ensures { result ≡ word_for (int_div (signed a) (signed b)) }
{
    a.cast_signed()
        .wrapping_div(b.cast_signed())
        .cast_unsigned()
}

/// The remainder of that quotient, which has the sign of `a` or is 0.
#[inline(always)]
pub(crate) fn remainder(a: u32, b: u32) -> u32
    requires { b ≢ 0 }
    ensures { result ≡ word_for (int_rem (signed a) (signed b)) }
{
    a.cast_signed()
        .wrapping_rem(b.cast_signed())
        .cast_unsigned()
}

/// The word with the sign that a field has whose highest bit weighs so much.
#[inline(always)]
pub(crate) fn extend(field: u32, sign: u32) -> u32
    requires field_fits { field < sign * 2 }
    requires sign_fits { sign ≤ 2 ^ 30 }
    ensures { result ≡ (if nat_lt field sign then field else field + (2 ^ 32 - sign * 2)) }
{
    if field < sign {
        field
    } else {
        field + (u32::MAX - sign * 2 + 1)
    }
}

/// The high word of the product of a word with its sign and a number.
#[inline(always)]
pub(crate) fn high_product(a: u32, b: i64) -> u32
    requires { unsigned_abs b < 2 ^ 32 }
    ensures { result ≡ high_word (signed a *ℤ b) }
{
    high_word(i64::from(a.cast_signed()) * b)
}

/// The high word of a product.
#[inline(always)]
fn high_word(product: i64) -> u32
    ensures { result ≡ high_word product }
{
    ((product >> 32) as i32).cast_unsigned()
}
