// Operators on conditions. Each evaluates all its operands, so that none is a branch.

ghost use Rattle.std.specs.Prelude.{◌≡◌, not, ◌&&◌, ◌||◌};
ghost use Rattle.word.specs.Operators.{word_of};

/// `a && b`.
pub fn and(a: bool, b: bool) -> bool
    ensures { result ≡ (a && b) }
{
    a & b
}

/// `a || b`.
pub fn or(a: bool, b: bool) -> bool
    ensures { result ≡ (a || b) }
{
    a | b
}

/// `!a`.
pub fn not(a: bool) -> bool
    ensures { result ≡ not a }
{
    !a
}

/// The word that a condition is: 0 for false, 1 for true.
pub fn from_bool(a: bool) -> u32
    ensures { result ≡ word_of a }
{
    u32::from(a)
}
