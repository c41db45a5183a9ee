// The immediate of the U format.

ghost use Rattle.std.specs.Prelude.{◌≡◌, ◌%◌, ◌^◌, ◌<◌};
ghost use Rattle.std.specs.Option.{SomeIff};

use std::marker::Model;

/// The upper 20 bits of a word, as the U format holds them.
/// A contract sees the field, below 2^20.
#[derive(Clone, Copy)]
pub struct UpperImmediate {
    field: u32,
}

impl Model for UpperImmediate {
    ghost use Rattle.std.specs.Prelude.{ℕ, ◌<◌, ◌^◌};

    ghost Value = { ℕ };

    ghost view = { λ i. i.field };

    ghost invariant = { λ i. i.field < 2 ^ 20 };

    ghost inverse = { λ n. record { field = n } };
}

impl UpperImmediate {
    /// The immediate with this field, where 20 bits can hold it.
    pub fn new(field: u32) -> Option<Self>
        ensures { SomeIff result (field < 2 ^ 20) field }
    {
        if field < 1 << 20 {
            Some(UpperImmediate { field })
        } else {
            None
        }
    }

    /// The immediate whose field is the low 20 bits.
    pub fn from_bits(bits: u32) -> Self
        ensures { result ≡ bits % 2 ^ 20 }
    {
        UpperImmediate {
            field: bits % (1 << 20),
        }
    }

    /// The field, below 2^20.
    pub fn field(self) -> u32
        ensures value { result ≡ self }
        ensures below_2_to_20 { self < 2 ^ 20 }
    {
        self.field
    }
}
