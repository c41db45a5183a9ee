// Fields of a few bits: the amounts of shifts and the parts of FENCE.

ghost use Rattle.std.specs.Prelude.{◌≡◌, ◌%◌, ◌^◌, ◌<◌};
ghost use Rattle.std.specs.Option.{SomeIff};

use std::marker::Model;

/// By how many bits an immediate shift moves, 0 to 31. A contract sees the number.
#[derive(Clone, Copy)]
pub struct ShiftAmount {
    bits: u8,
}

impl Model for ShiftAmount {
    ghost use Rattle.std.specs.Prelude.{ℕ, ◌<◌};

    ghost Value = { ℕ };

    ghost view = { λ a. a.bits };

    ghost invariant = { λ a. a.bits < 32 };

    ghost inverse = { λ n. record { bits = n } };
}

impl ShiftAmount {
    /// This amount, where 5 bits can hold it.
    pub fn new(amount: u8) -> Option<Self>
        ensures { SomeIff result (amount < 32) amount }
    {
        if amount < 32 {
            Some(ShiftAmount { bits: amount })
        } else {
            None
        }
    }

    /// The amount that the low five bits are.
    pub fn from_bits(bits: u32) -> Self
        ensures { result ≡ bits % 2 ^ 5 }
    {
        ShiftAmount {
            bits: (bits % 32) as u8,
        }
    }

    /// The amount, below 32.
    pub fn amount(self) -> u8
        ensures value { result ≡ self }
        ensures below_32 { self < 2 ^ 5 }
    {
        self.bits
    }
}

/// Four bits of a FENCE: its mode, or which kinds of access it orders. A contract sees the number.
#[derive(Clone, Copy)]
pub struct FenceBits {
    bits: u8,
}

impl Model for FenceBits {
    ghost use Rattle.std.specs.Prelude.{ℕ, ◌<◌};

    ghost Value = { ℕ };

    ghost view = { λ f. f.bits };

    ghost invariant = { λ f. f.bits < 16 };

    ghost inverse = { λ n. record { bits = n } };
}

impl FenceBits {
    /// These bits, where they are four.
    pub fn new(bits: u8) -> Option<Self>
        ensures { SomeIff result (bits < 16) bits }
    {
        if bits < 16 {
            Some(FenceBits { bits })
        } else {
            None
        }
    }

    /// The low four bits.
    pub fn from_bits(bits: u32) -> Self
        ensures { result ≡ bits % 2 ^ 4 }
    {
        FenceBits {
            bits: (bits % 16) as u8,
        }
    }

    /// The number that the bits are, below 16.
    pub fn bits(self) -> u8
        ensures value { result ≡ self }
        ensures below_16 { self < 2 ^ 4 }
    {
        self.bits
    }
}
