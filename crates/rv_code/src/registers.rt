// The integer registers.

ghost use Rattle.std.specs.Prelude.{◌≡◌, ◌%◌, ◌<◌};
ghost use Rattle.std.specs.Option.{SomeIff};

use std::marker::Model;

/// One of the registers x0 to x31. A contract sees its number.
#[derive(Clone, Copy, PartialEq, Eq)]
pub struct Reg {
    number: u8,
}

impl Model for Reg {
    ghost use Rattle.std.specs.Prelude.{ℕ, ◌<◌};

    ghost Value = { ℕ };

    ghost view = { λ r. r.number };

    ghost invariant = { λ r. r.number < 32 };

    ghost inverse = { λ n. record { number = n } };
}

impl Reg {
    /// The register that always reads 0.
    pub const X0: Reg = Reg { number: 0 };

    /// The return address of the standard calling convention.
    pub const X1: Reg = Reg { number: 1 };

    /// The stack pointer of the standard calling convention.
    pub const X2: Reg = Reg { number: 2 };

    // The temporaries of the standard calling convention.
    pub const X5: Reg = Reg { number: 5 };

    pub const X6: Reg = Reg { number: 6 };

    pub const X7: Reg = Reg { number: 7 };

    pub const X28: Reg = Reg { number: 28 };

    pub const X29: Reg = Reg { number: 29 };

    pub const X30: Reg = Reg { number: 30 };

    pub const X31: Reg = Reg { number: 31 };

    /// The register with this number, where there is one.
    pub fn new(number: u8) -> Option<Self>
        ensures { SomeIff result (number < 32) number }
    {
        if number < 32 {
            Some(Reg { number })
        } else {
            None
        }
    }

    /// The register whose number is the low five bits.
    pub fn from_bits(bits: u32) -> Self
        ensures { result ≡ bits % 32 }
    {
        Reg {
            number: (bits % 32) as u8,
        }
    }

    /// The number of the register, below 32.
    pub fn number(self) -> u8
        ensures value { result ≡ self }
        ensures below_32 { self < 32 }
    {
        self.number
    }
}
