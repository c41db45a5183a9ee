// The order of words, which are numbers without a sign.

ghost use Rattle.std.specs.Prelude.{◌≡◌, ◌==◌, not, nat_lt, nat_le};

/// `a == b`.
pub fn equal(a: u32, b: u32) -> bool
    ensures { result ≡ (a == b) }
{
    a == b
}

/// `a != b`.
pub fn unequal(a: u32, b: u32) -> bool
    ensures { result ≡ not (a == b) }
{
    a != b
}

/// `a < b`.
pub fn less(a: u32, b: u32) -> bool
    ensures { result ≡ nat_lt a b }
{
    a < b
}

/// `a <= b`.
pub fn at_most(a: u32, b: u32) -> bool
    ensures { result ≡ nat_le a b }
{
    a <= b
}

/// `a > b`.
pub fn greater(a: u32, b: u32) -> bool
    ensures { result ≡ nat_lt b a }
{
    a > b
}

/// `a >= b`.
pub fn at_least(a: u32, b: u32) -> bool
    ensures { result ≡ nat_le b a }
{
    a >= b
}
