// Operands as assembly text.

ghost use Rattle.std.specs.Prelude.{Some};
ghost use Rattle.std.specs.Fmt.{decimal};
ghost use Rattle.rv_code.specs.FieldText.{reg_text, immediate_text, upper_text, branch_offset_text, jump_offset_text};

use crate::immediates::Immediate12;
use crate::offsets::{BranchOffset, JumpOffset};
use crate::registers::Reg;
use crate::small_fields::{FenceBits, ShiftAmount};
use crate::upper_immediates::UpperImmediate;
use std::fmt;

impl fmt::Display for Reg {
    ghost output = { λ register. Some (reg_text register) };

    fn fmt<W: fmt::Write>(&self, f: &mut fmt::Formatter<W>) -> fmt::Result {
        let number = self.number();
        write!(f, "x{number}")
    }
}

impl fmt::Display for Immediate12 {
    ghost output = { λ immediate. Some (immediate_text immediate) };

    fn fmt<W: fmt::Write>(&self, f: &mut fmt::Formatter<W>) -> fmt::Result {
        let value = self.value();
        write!(f, "{value}")
    }
}

impl fmt::Display for UpperImmediate {
    ghost output = { λ immediate. Some (upper_text immediate) };

    fn fmt<W: fmt::Write>(&self, f: &mut fmt::Formatter<W>) -> fmt::Result {
        let field = self.field();
        write!(f, "0x{field:05x}")
    }
}

impl fmt::Display for BranchOffset {
    ghost output = { λ offset. Some (branch_offset_text offset) };

    fn fmt<W: fmt::Write>(&self, f: &mut fmt::Formatter<W>) -> fmt::Result {
        let value = self.value();
        write!(f, "{value}")
    }
}

impl fmt::Display for JumpOffset {
    ghost output = { λ offset. Some (jump_offset_text offset) };

    fn fmt<W: fmt::Write>(&self, f: &mut fmt::Formatter<W>) -> fmt::Result {
        let value = self.value();
        write!(f, "{value}")
    }
}

impl fmt::Display for ShiftAmount {
    ghost output = { λ amount. Some (decimal amount) };

    fn fmt<W: fmt::Write>(&self, f: &mut fmt::Formatter<W>) -> fmt::Result {
        let amount = self.amount();
        write!(f, "{amount}")
    }
}

impl fmt::Display for FenceBits {
    ghost output = { λ bits. Some (decimal bits) };

    fn fmt<W: fmt::Write>(&self, f: &mut fmt::Formatter<W>) -> fmt::Result {
        let bits = self.bits();
        write!(f, "{bits}")
    }
}
