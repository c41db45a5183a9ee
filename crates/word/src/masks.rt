// Masks, and the choice of one of two words without a branch.

ghost use Rattle.std.specs.Prelude.{◌≡◌};
ghost use Rattle.word.specs.Operators.{mask, selected};

/// The mask of a condition: all ones where it holds, else all zeros.
pub fn mask_of(condition: bool) -> u32
    ensures { result ≡ mask condition }
{
    u32::from(condition).wrapping_neg()
}

/// The bits of `a` where the mask has ones, and those of `b` where it has zeros.
pub fn select(mask: u32, a: u32, b: u32) -> u32
    ensures { result ≡ selected mask a b }
{
    b ^ ((a ^ b) & mask)
}
