// The signed immediate of the I and S formats.

ghost use Rattle.std.specs.Prelude.{◌≡◌, ◌%◌, ◌^◌, ◌<◌, ◌↔◌, IsSome, IfSome, pos, negsuc, ◌≤ℤ◌};
ghost use Rattle.rv_code.specs.Signed.{signed_value, sign_extended};

use crate::signed;
use std::marker::Model;

/// A signed number of 12 bits, -2048 to 2047, as the I and S formats hold it.
/// A contract sees the field: the number's two's complement, below 4096.
#[derive(Clone, Copy)]
pub struct Immediate12 {
    field: u16,
}

impl Model for Immediate12 {
    ghost use Rattle.std.specs.Prelude.{ℕ, ◌<◌};

    ghost Value = { ℕ };

    ghost view = { λ i. i.field };

    ghost invariant = { λ i. i.field < 4096 };

    ghost inverse = { λ n. record { field = n } };
}

impl Immediate12 {
    /// The field of this number, where 12 bits can hold it.
    pub fn new(value: i32) -> Option<Self>
        ensures fits { IsSome result ↔ ((negsuc 2047 ≤ℤ value) × (value ≤ℤ pos 2047)) }
        ensures value { IfSome result (λ field. signed_value 12 field ≡ value) }
    {
        match value {
            0..=2047 => Some(Immediate12 {
                field: value as u16,
            }),
            -2048..=-1 => Some(Immediate12 {
                field: (value + 4096) as u16,
            }),
            _ => None,
        }
    }

    /// The immediate whose field is the low 12 bits.
    pub fn from_bits(bits: u32) -> Self
        ensures { result ≡ bits % 2 ^ 12 }
    {
        Immediate12 {
            field: (bits % 4096) as u16,
        }
    }

    /// The field, below 4096.
    pub fn field(self) -> u16
        ensures value { result ≡ self }
        ensures below_4096 { self < 2 ^ 12 }
    {
        self.field
    }

    /// The number modulo 2^32.
    #[inline(always)]
    pub fn word(self) -> u32
        ensures { result ≡ sign_extended 12 self }
    {
        signed::extend(u32::from(self.field), 0x800)
    }

    /// The number, -2048 to 2047.
    pub fn value(self) -> i32
        ensures { result ≡ signed_value 12 self }
    {
        let field = i32::from(self.field);
        if field < 2048 { field } else { field - 4096 }
    }
}
