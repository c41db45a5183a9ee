// How far branches and jumps go.

ghost use Rattle.std.specs.Prelude.{◌≡◌, ℕ, ◌*◌, ◌%◌, ◌^◌, ◌<◌, Some, IfSome};
ghost use Rattle.rv_code.specs.Signed.{signed_value, sign_extended};

use crate::signed;
use std::marker::Model;

/// An even number of bytes from -4096 to 4094, as the B format holds it.
/// A contract sees the field: half of the number's two's complement in 13 bits, below 4096.
#[derive(Clone, Copy)]
pub struct BranchOffset {
    halves: u16,
}

impl Model for BranchOffset {
    ghost use Rattle.std.specs.Prelude.{ℕ, ◌<◌};

    ghost Value = { ℕ };

    ghost view = { λ o. o.halves };

    ghost invariant = { λ o. o.halves < 4096 };

    ghost inverse = { λ n. record { halves = n } };
}

impl BranchOffset {
    /// The offset of so many bytes, where there is one.
    pub fn new(value: i32) -> Option<Self>
        ensures found { IfSome result (λ halves. signed_value 13 (halves * 2) ≡ value) }
        ensures only { (halves : ℕ) → halves < 2 ^ 12 → signed_value 13 (halves * 2) ≡ value → result ≡ Some halves }
    {
        let bits = match value {
            0..=4095 => value as u32,
            -4096..=-1 => (value + 8192) as u32,
            _ => return None,
        };
        if bits % 2 == 0 {
            Some(BranchOffset::from_halves(bits / 2))
        } else {
            None
        }
    }

    /// The offset whose field is the low 12 bits.
    pub fn from_halves(halves: u32) -> Self
        ensures { result ≡ halves % 2 ^ 12 }
    {
        BranchOffset {
            halves: (halves % 4096) as u16,
        }
    }

    /// The field, below 4096.
    pub fn halves(self) -> u16
        ensures value { result ≡ self }
        ensures below_4096 { self < 2 ^ 12 }
    {
        self.halves
    }

    /// The number of bytes modulo 2^32.
    #[inline(always)]
    pub fn word(self) -> u32
        ensures { result ≡ sign_extended 13 (self * 2) }
    {
        signed::extend(u32::from(self.halves) * 2, 0x1000)
    }

    /// The number of bytes, -4096 to 4094.
    pub fn value(self) -> i32
        ensures { result ≡ signed_value 13 (self * 2) }
    {
        let bits = i32::from(self.halves) * 2;
        if bits < 4096 { bits } else { bits - 8192 }
    }
}

/// An even number of bytes from -1048576 to 1048574, as the J format holds it.
/// A contract sees the field: half of the number's two's complement in 21 bits, below 2^20.
#[derive(Clone, Copy)]
pub struct JumpOffset {
    halves: u32,
}

impl Model for JumpOffset {
    ghost use Rattle.std.specs.Prelude.{ℕ, ◌<◌, ◌^◌};

    ghost Value = { ℕ };

    ghost view = { λ o. o.halves };

    ghost invariant = { λ o. o.halves < 2 ^ 20 };

    ghost inverse = { λ n. record { halves = n } };
}

impl JumpOffset {
    /// The offset of so many bytes, where there is one.
    pub fn new(value: i32) -> Option<Self>
        ensures found { IfSome result (λ halves. signed_value 21 (halves * 2) ≡ value) }
        ensures only { (halves : ℕ) → halves < 2 ^ 20 → signed_value 21 (halves * 2) ≡ value → result ≡ Some halves }
    {
        let bits = match value {
            0..=1_048_575 => value as u32,
            -1_048_576..=-1 => (value + 2_097_152) as u32,
            _ => return None,
        };
        if bits % 2 == 0 {
            Some(JumpOffset::from_halves(bits / 2))
        } else {
            None
        }
    }

    /// The offset whose field is the low 20 bits.
    pub fn from_halves(halves: u32) -> Self
        ensures { result ≡ halves % 2 ^ 20 }
    {
        JumpOffset {
            halves: halves % (1 << 20),
        }
    }

    /// The field, below 2^20.
    pub fn halves(self) -> u32
        ensures value { result ≡ self }
        ensures below_2_to_20 { self < 2 ^ 20 }
    {
        self.halves
    }

    /// The number of bytes modulo 2^32.
    #[inline(always)]
    pub fn word(self) -> u32
        ensures { result ≡ sign_extended 21 (self * 2) }
    {
        signed::extend(self.halves * 2, 0x10_0000)
    }

    /// The number of bytes, -1048576 to 1048574.
    pub fn value(self) -> i32
        ensures { result ≡ signed_value 21 (self * 2) }
    {
        let bits = (self.halves * 2) as i32;
        if bits < 1_048_576 {
            bits
        } else {
            bits - 2_097_152
        }
    }
}
