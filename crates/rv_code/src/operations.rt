// The instruction table: for each operation its name in text, the fixed fields of its words, and what
// it makes of words.
//
// A new instruction of a format that is here is a variant, its row, its place in the table by funct3 and its value.
// Where no operation of a group has a funct3, another one stands there, whose words have another. What they have to be
// is said in `specs/Operations.antt`.

ghost use Rattle.std.specs.Prelude.{◌≡◌};
ghost use Rattle.rv_code.specs.Operations.{upper_row, branch_row, load_row, store_row, immediate_row, shift_row};
ghost use Rattle.rv_code.specs.Operations.{register_row, multiply_row, divide_row};
ghost use Rattle.rv_code.specs.Operations.{upper_value, holds, load_width, loaded_value, store_width, immediate_value};
ghost use Rattle.rv_code.specs.Operations.{shift_value, register_value, multiply_value, divide_value};

use crate::signed;
use crate::upper_immediates::UpperImmediate;
use word::Width;

pub(crate) const LUI: u32 = 0b0110111;

pub(crate) const AUIPC: u32 = 0b0010111;

pub(crate) const OP_IMM: u32 = 0b0010011;

pub(crate) const OP: u32 = 0b0110011;

pub(crate) const LOAD: u32 = 0b0000011;

pub(crate) const STORE: u32 = 0b0100011;

pub(crate) const BRANCH: u32 = 0b1100011;

pub(crate) const JAL: u32 = 0b1101111;

pub(crate) const JALR: u32 = 0b1100111;

pub(crate) const MISC_MEM: u32 = 0b0001111;

pub(crate) const SYSTEM: u32 = 0b1110011;

/// The funct7 of multiplications and divisions.
pub(crate) const MULDIV: u32 = 0b0000001;

pub(crate) const ECALL: u32 = 0x00000073;

pub(crate) const EBREAK: u32 = 0x00100073;

/// What the U format computes.
#[derive(Clone, Copy)]
pub enum UpperOperation {
    Lui,
    Auipc,
}

/// What two registers have to be for a branch to be taken.
#[derive(Clone, Copy)]
pub enum BranchTest {
    Beq,
    Bne,
    Blt,
    Bge,
    Bltu,
    Bgeu,
}

/// Which bytes a load reads, and how they fill the register.
#[derive(Clone, Copy)]
pub enum LoadOperation {
    Lb,
    Lh,
    Lw,
    Lbu,
    Lhu,
}

/// Which bytes of the register a store writes.
#[derive(Clone, Copy)]
pub enum StoreOperation {
    Sb,
    Sh,
    Sw,
}

/// What a register and an immediate compute.
#[derive(Clone, Copy)]
pub enum ImmediateOperation {
    Addi,
    Slti,
    Sltiu,
    Xori,
    Ori,
    Andi,
}

/// How a register is shifted by an amount.
#[derive(Clone, Copy)]
pub enum ShiftOperation {
    Slli,
    Srli,
    Srai,
}

/// What two registers compute.
#[derive(Clone, Copy)]
pub enum RegisterOperation {
    Add,
    Sub,
    Sll,
    Slt,
    Sltu,
    Xor,
    Srl,
    Sra,
    Or,
    And,
}

/// Which half of two registers' product, with which signs.
#[derive(Clone, Copy)]
pub enum MultiplyOperation {
    Mul,
    Mulh,
    Mulhsu,
    Mulhu,
}

/// The quotient or the remainder of two registers, with or without signs.
#[derive(Clone, Copy)]
pub enum DivideOperation {
    Div,
    Divu,
    Rem,
    Remu,
}

/// The row of an operation that its opcode tells.
#[derive(Clone, Copy)]
pub(crate) struct OpcodeRow {
    pub mnemonic: &'static str,
    pub opcode: u32,
}

/// The row of an operation that funct3 tells within its group.
#[derive(Clone, Copy)]
pub(crate) struct Funct3Row {
    pub mnemonic: &'static str,
    pub funct3: u32,
}

/// The row of an operation that funct3 and funct7 tell within its group.
#[derive(Clone, Copy)]
pub(crate) struct Funct7Row {
    pub mnemonic: &'static str,
    pub funct3: u32,
    pub funct7: u32,
}

impl UpperOperation {
    pub(crate) fn row(self) -> OpcodeRow
        ensures mnemonic { result.mnemonic.now ≡ (upper_row self).mnemonic }
        ensures opcode { result.opcode ≡ (upper_row self).opcode }
    {
        let (mnemonic, opcode) = match self {
            Self::Lui => ("lui", LUI),
            Self::Auipc => ("auipc", AUIPC),
        };
        OpcodeRow { mnemonic, opcode }
    }

    /// The value for an immediate, where the instruction stands at `pc`.
    #[inline(always)]
    pub fn value(self, pc: u32, immediate: UpperImmediate) -> u32
        ensures { result ≡ upper_value self pc immediate }
    {
        let upper = immediate.field() * 4096;
        match self {
            Self::Lui => upper,
            Self::Auipc => word::add(Width::W32, pc, upper),
        }
    }
}

impl BranchTest {
    pub(crate) const BY_FUNCT3: [Self; 8] = [
        Self::Beq,
        Self::Bne,
        Self::Beq,
        Self::Beq,
        Self::Blt,
        Self::Bge,
        Self::Bltu,
        Self::Bgeu,
    ];

    pub(crate) fn row(self) -> Funct3Row
        ensures mnemonic { result.mnemonic.now ≡ (branch_row self).mnemonic }
        ensures funct3 { result.funct3 ≡ (branch_row self).funct3 }
    {
        let (mnemonic, funct3) = match self {
            Self::Beq => ("beq", 0b000),
            Self::Bne => ("bne", 0b001),
            Self::Blt => ("blt", 0b100),
            Self::Bge => ("bge", 0b101),
            Self::Bltu => ("bltu", 0b110),
            Self::Bgeu => ("bgeu", 0b111),
        };
        Funct3Row { mnemonic, funct3 }
    }

    /// Whether a branch is taken.
    #[inline(always)]
    pub fn holds(self, a: u32, b: u32) -> bool
        ensures { result ≡ holds self a b }
    {
        match self {
            Self::Beq => word::equal(a, b),
            Self::Bne => word::unequal(a, b),
            Self::Blt => signed::less(a, b),
            Self::Bge => signed::at_least(a, b),
            Self::Bltu => word::less(a, b),
            Self::Bgeu => word::at_least(a, b),
        }
    }
}

impl LoadOperation {
    pub(crate) const BY_FUNCT3: [Self; 6] = [
        Self::Lb,
        Self::Lh,
        Self::Lw,
        Self::Lw,
        Self::Lbu,
        Self::Lhu,
    ];

    pub(crate) fn row(self) -> Funct3Row
        ensures mnemonic { result.mnemonic.now ≡ (load_row self).mnemonic }
        ensures funct3 { result.funct3 ≡ (load_row self).funct3 }
    {
        let (mnemonic, funct3) = match self {
            Self::Lb => ("lb", 0b000),
            Self::Lh => ("lh", 0b001),
            Self::Lw => ("lw", 0b010),
            Self::Lbu => ("lbu", 0b100),
            Self::Lhu => ("lhu", 0b101),
        };
        Funct3Row { mnemonic, funct3 }
    }

    /// How wide a word it reads.
    #[inline(always)]
    pub fn width(self) -> Width
        ensures { result ≡ load_width self }
    {
        match self {
            Self::Lb | Self::Lbu => Width::W8,
            Self::Lh | Self::Lhu => Width::W16,
            Self::Lw => Width::W32,
        }
    }

    /// What the register gets of the word that was read.
    #[inline(always)]
    pub fn value(self, loaded: u32) -> u32
        ensures { result ≡ loaded_value self loaded }
    {
        match self {
            Self::Lb => signed::extend(loaded % 256, 128),
            Self::Lh => signed::extend(loaded % 65_536, 32_768),
            Self::Lw | Self::Lbu | Self::Lhu => loaded,
        }
    }
}

impl StoreOperation {
    pub(crate) const BY_FUNCT3: [Self; 3] = [Self::Sb, Self::Sh, Self::Sw];

    pub(crate) fn row(self) -> Funct3Row
        ensures mnemonic { result.mnemonic.now ≡ (store_row self).mnemonic }
        ensures funct3 { result.funct3 ≡ (store_row self).funct3 }
    {
        let (mnemonic, funct3) = match self {
            Self::Sb => ("sb", 0b000),
            Self::Sh => ("sh", 0b001),
            Self::Sw => ("sw", 0b010),
        };
        Funct3Row { mnemonic, funct3 }
    }

    /// How wide a word it writes.
    #[inline(always)]
    pub fn width(self) -> Width
        ensures { result ≡ store_width self }
    {
        match self {
            Self::Sb => Width::W8,
            Self::Sh => Width::W16,
            Self::Sw => Width::W32,
        }
    }
}

impl ImmediateOperation {
    pub(crate) const BY_FUNCT3: [Self; 8] = [
        Self::Addi,
        Self::Addi,
        Self::Slti,
        Self::Sltiu,
        Self::Xori,
        Self::Addi,
        Self::Ori,
        Self::Andi,
    ];

    pub(crate) fn row(self) -> Funct3Row
        ensures mnemonic { result.mnemonic.now ≡ (immediate_row self).mnemonic }
        ensures funct3 { result.funct3 ≡ (immediate_row self).funct3 }
    {
        let (mnemonic, funct3) = match self {
            Self::Addi => ("addi", 0b000),
            Self::Slti => ("slti", 0b010),
            Self::Sltiu => ("sltiu", 0b011),
            Self::Xori => ("xori", 0b100),
            Self::Ori => ("ori", 0b110),
            Self::Andi => ("andi", 0b111),
        };
        Funct3Row { mnemonic, funct3 }
    }

    /// The value for a register and an immediate.
    #[inline(always)]
    pub fn value(self, a: u32, b: u32) -> u32
        ensures { result ≡ immediate_value self a b }
    {
        match self {
            Self::Addi => word::add(Width::W32, a, b),
            Self::Slti => word::from_bool(signed::less(a, b)),
            Self::Sltiu => word::from_bool(word::less(a, b)),
            Self::Xori => word::bit_xor(a, b),
            Self::Ori => word::bit_or(a, b),
            Self::Andi => word::bit_and(a, b),
        }
    }
}

impl ShiftOperation {
    pub(crate) fn row(self) -> Funct7Row
        ensures mnemonic { result.mnemonic.now ≡ (shift_row self).mnemonic }
        ensures funct3 { result.funct3 ≡ (shift_row self).funct3 }
        ensures funct7 { result.funct7 ≡ (shift_row self).funct7 }
    {
        let (mnemonic, funct3, funct7) = match self {
            Self::Slli => ("slli", 0b001, 0b0000000),
            Self::Srli => ("srli", 0b101, 0b0000000),
            Self::Srai => ("srai", 0b101, 0b0100000),
        };
        Funct7Row {
            mnemonic,
            funct3,
            funct7,
        }
    }

    /// The value for a register and an amount.
    #[inline(always)]
    pub fn value(self, a: u32, amount: u32) -> u32
        ensures { result ≡ shift_value self a amount }
    {
        match self {
            Self::Slli => word::shift_left(Width::W32, a, amount),
            Self::Srli => word::shift_right(Width::W32, a, amount),
            Self::Srai => signed::shift_right(a, amount),
        }
    }
}

impl RegisterOperation {
    pub(crate) const BY_FUNCT3: [Self; 8] = [
        Self::Add,
        Self::Sll,
        Self::Slt,
        Self::Sltu,
        Self::Xor,
        Self::Srl,
        Self::Or,
        Self::And,
    ];

    /// Those with another funct7 than 0.
    pub(crate) const BY_FUNCT3_BESIDE: [Self; 6] = [
        Self::Sub,
        Self::Sll,
        Self::Slt,
        Self::Sltu,
        Self::Xor,
        Self::Sra,
    ];

    pub(crate) fn row(self) -> Funct7Row
        ensures mnemonic { result.mnemonic.now ≡ (register_row self).mnemonic }
        ensures funct3 { result.funct3 ≡ (register_row self).funct3 }
        ensures funct7 { result.funct7 ≡ (register_row self).funct7 }
    {
        let (mnemonic, funct3, funct7) = match self {
            Self::Add => ("add", 0b000, 0b0000000),
            Self::Sub => ("sub", 0b000, 0b0100000),
            Self::Sll => ("sll", 0b001, 0b0000000),
            Self::Slt => ("slt", 0b010, 0b0000000),
            Self::Sltu => ("sltu", 0b011, 0b0000000),
            Self::Xor => ("xor", 0b100, 0b0000000),
            Self::Srl => ("srl", 0b101, 0b0000000),
            Self::Sra => ("sra", 0b101, 0b0100000),
            Self::Or => ("or", 0b110, 0b0000000),
            Self::And => ("and", 0b111, 0b0000000),
        };
        Funct7Row {
            mnemonic,
            funct3,
            funct7,
        }
    }

    /// The value for two registers.
    #[inline(always)]
    pub fn value(self, a: u32, b: u32) -> u32
        ensures { result ≡ register_value self a b }
    {
        match self {
            Self::Add => word::add(Width::W32, a, b),
            Self::Sub => word::subtract(Width::W32, a, b),
            Self::Sll => word::shift_left(Width::W32, a, b),
            Self::Slt => word::from_bool(signed::less(a, b)),
            Self::Sltu => word::from_bool(word::less(a, b)),
            Self::Xor => word::bit_xor(a, b),
            Self::Srl => word::shift_right(Width::W32, a, b),
            Self::Sra => signed::shift_right(a, b),
            Self::Or => word::bit_or(a, b),
            Self::And => word::bit_and(a, b),
        }
    }
}

impl MultiplyOperation {
    pub(crate) const BY_FUNCT3: [Self; 4] = [Self::Mul, Self::Mulh, Self::Mulhsu, Self::Mulhu];

    pub(crate) fn row(self) -> Funct3Row
        ensures mnemonic { result.mnemonic.now ≡ (multiply_row self).mnemonic }
        ensures funct3 { result.funct3 ≡ (multiply_row self).funct3 }
    {
        let (mnemonic, funct3) = match self {
            Self::Mul => ("mul", 0b000),
            Self::Mulh => ("mulh", 0b001),
            Self::Mulhsu => ("mulhsu", 0b010),
            Self::Mulhu => ("mulhu", 0b011),
        };
        Funct3Row { mnemonic, funct3 }
    }

    /// The half of two registers' product.
    #[inline(always)]
    pub fn value(self, a: u32, b: u32) -> u32
        ensures { result ≡ multiply_value self a b }
    {
        match self {
            Self::Mul => word::multiply(Width::W32, a, b),
            Self::Mulh => signed::high_product(a, i64::from(b.cast_signed())),
            Self::Mulhsu => signed::high_product(a, i64::from(b)),
            Self::Mulhu => ((u64::from(a) * u64::from(b)) >> 32) as u32,
        }
    }
}

impl DivideOperation {
    /// By the low two bits of funct3.
    pub(crate) const BY_FUNCT3: [Self; 4] = [Self::Div, Self::Divu, Self::Rem, Self::Remu];

    pub(crate) fn row(self) -> Funct3Row
        ensures mnemonic { result.mnemonic.now ≡ (divide_row self).mnemonic }
        ensures funct3 { result.funct3 ≡ (divide_row self).funct3 }
    {
        let (mnemonic, funct3) = match self {
            Self::Div => ("div", 0b100),
            Self::Divu => ("divu", 0b101),
            Self::Rem => ("rem", 0b110),
            Self::Remu => ("remu", 0b111),
        };
        Funct3Row { mnemonic, funct3 }
    }

    /// The quotient or the remainder of two registers.
    #[inline(always)]
    pub fn value(self, a: u32, b: u32) -> u32
        ensures { result ≡ divide_value self a b }
    {
        if b == 0 {
            return self.by_zero(a);
        }
        match self {
            Self::Div => signed::divide(a, b),
            Self::Divu => word::divide(a, b),
            Self::Rem => signed::remainder(a, b),
            Self::Remu => word::remainder(a, b),
        }
    }

    fn by_zero(self, a: u32) -> u32
        ensures { result ≡ divide_value self a 0 }
    {
        match self {
            Self::Div | Self::Divu => u32::MAX,
            Self::Rem | Self::Remu => a,
        }
    }
}
