// The widths of words.

ghost use Rattle.std.specs.Prelude.{◌≡◌};

/// How many bits a word has.
#[derive(Clone, Copy, Debug, PartialEq, Eq)]
pub enum Width {
    W8,
    W16,
    W32,
}

impl Width {
    ghost use Rattle.word.specs.Widths.{bits};

    /// The number of bits.
    pub fn bits(self) -> u32
        ensures { result ≡ bits self }
    {
        match self {
            Width::W8 => 8,
            Width::W16 => 16,
            Width::W32 => 32,
        }
    }
}
