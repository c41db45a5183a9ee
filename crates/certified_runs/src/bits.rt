// Words of which some bits are unknown, and which bits of what an operation makes of them are unknown then: a row for
// each operation, as the instruction table has one for its value. What the rows are is said in `specs/Bits.antt`.

ghost use Rattle.std.specs.Prelude.{◌≡◌, bit_or};
ghost use Rattle.certified_runs.specs.Bits.{and_unknown, are_known, cancels, decides_branch, decides_equal};
ghost use Rattle.certified_runs.specs.Bits.{decides_less, decides_signed_less, difference_unknown, divide_unknown};
ghost use Rattle.certified_runs.specs.Bits.{from_lowest, immediate_unknown, is_known, is_known_amount, is_zero, least};
ghost use Rattle.certified_runs.specs.Bits.{multiply_unknown, or_unknown, partly, product_is_zero, register_unknown};
ghost use Rattle.certified_runs.specs.Bits.{shifted_unknown, sum_unknown, turned, unless, xor_unknown};

use rv_code::{
    BranchTest, DivideOperation, ImmediateOperation, MultiplyOperation, RegisterOperation,
    ShiftOperation,
};
use word::{Width, add, negate, subtract};

/// Each bit of a word.
const ALL_BITS: u32 = u32::MAX;

/// The sign bit of a word.
const SIGN: u32 = 0x8000_0000;

/// A word of which some bits are unknown.
#[derive(Clone, Copy)]
pub(crate) struct PartialWord {
    /// The greatest number that it may be, which has each of the unknown bits.
    pub greatest: u32,
    /// The unknown bits.
    pub unknown: u32,
}

impl PartialWord {
    /// A number of which the bits of a mask are unknown.
    #[inline(always)]
    pub(crate) fn new(value: u32, mask: u32) -> Self
        ensures { result ≡ partly mask value }
    {
        PartialWord {
            greatest: value | mask,
            unknown: mask,
        }
    }

    /// The least number that it may be.
    #[inline(always)]
    fn least(self) -> u32
        ensures { result ≡ least self }
    {
        self.greatest ^ self.unknown
    }

    /// Whether it is known to be 0.
    #[inline(always)]
    fn is_zero(self) -> bool
        ensures { result ≡ is_zero self }
    {
        self.greatest == 0
    }

    /// Whether all of it is known.
    #[inline(always)]
    pub(crate) fn is_known(self) -> bool
        ensures { result ≡ is_known self }
    {
        self.unknown == 0
    }

    /// Whether the low five bits are known, which a shift goes by.
    #[inline(always)]
    pub(crate) fn is_known_amount(self) -> bool
        ensures { result ≡ is_known_amount self }
    {
        self.unknown % 32 == 0
    }

    /// The word with its sign bit flipped, whose order is that of the words with signs.
    #[inline(always)]
    fn turned(self) -> Self
        ensures { result ≡ turned self }
    {
        PartialWord::new(self.greatest ^ SIGN, self.unknown)
    }
}

/// Whether all of both words is known.
#[inline(always)]
pub(crate) fn are_known(a: PartialWord, b: PartialWord) -> bool
    ensures { result ≡ are_known a b }
{
    a.is_known() && b.is_known()
}

// The unknown bits of what is known in some case, and else has any of these bits.
#[inline(always)]
pub(crate) fn unless(known: bool, bits: u32) -> u32
    ensures { result ≡ unless known bits }
{
    if known { 0 } else { bits }
}

#[inline(always)]
fn and_unknown(a: PartialWord, b: PartialWord) -> u32
    ensures { result ≡ and_unknown a b }
{
    (a.unknown | b.unknown) & (a.greatest & b.greatest)
}

#[inline(always)]
fn or_unknown(a: PartialWord, b: PartialWord) -> u32
    ensures { result ≡ or_unknown a b }
{
    let ones = a.least() | b.least();
    (a.unknown | b.unknown | ones) ^ ones
}

#[inline(always)]
fn xor_unknown(a: PartialWord, b: PartialWord) -> u32
    ensures { result ≡ xor_unknown a b }
{
    a.unknown | b.unknown
}

#[inline(always)]
fn sum_unknown(a: PartialWord, b: PartialWord) -> u32
    ensures { result ≡ sum_unknown a b }
{
    let least = add(Width::W32, a.least(), b.least());
    let greatest = add(Width::W32, a.greatest, b.greatest);
    a.unknown | b.unknown | (least ^ greatest)
}

#[inline(always)]
fn difference_unknown(a: PartialWord, b: PartialWord) -> u32
    ensures { result ≡ difference_unknown a b }
{
    let least = subtract(Width::W32, a.least(), b.greatest);
    let greatest = subtract(Width::W32, a.greatest, b.least());
    a.unknown | b.unknown | (least ^ greatest)
}

// The lowest bit of a mask, and all above it.
#[inline(always)]
fn from_lowest(mask: u32) -> u32
    ensures { result ≡ from_lowest mask }
{
    mask | negate(Width::W32, mask)
}

#[inline(always)]
fn product_is_zero(a: PartialWord, b: PartialWord) -> bool
    ensures { result ≡ product_is_zero a b }
{
    a.is_zero() || b.is_zero()
}

// Whether one word is less than the other in each case or in none.
#[inline(always)]
fn decides_less(a: PartialWord, b: PartialWord) -> bool
    ensures { result ≡ decides_less a b }
{
    a.greatest < b.least() || !(a.least() < b.greatest)
}

#[inline(always)]
fn decides_signed_less(a: PartialWord, b: PartialWord) -> bool
    ensures { result ≡ decides_signed_less a b }
{
    decides_less(a.turned(), b.turned())
}

#[inline(always)]
fn decides_equal(a: PartialWord, b: PartialWord) -> bool
    ensures { result ≡ decides_equal a b }
{
    let mask = a.unknown | b.unknown;
    mask == 0 || !(a.greatest | mask == b.greatest | mask)
}

/// Whether what is known of two words decides a branch.
#[inline(always)]
pub(crate) fn decides_branch(test: BranchTest, a: PartialWord, b: PartialWord) -> bool
    ensures { result ≡ decides_branch test a b }
{
    match test {
        BranchTest::Beq | BranchTest::Bne => decides_equal(a, b),
        BranchTest::Blt | BranchTest::Bge => decides_signed_less(a, b),
        BranchTest::Bltu | BranchTest::Bgeu => decides_less(a, b),
    }
}

#[inline(always)]
fn shifted_unknown(operation: ShiftOperation, a: PartialWord, amount: PartialWord) -> u32
    ensures { result ≡ shifted_unknown operation a amount }
{
    if amount.is_known_amount() {
        operation.value(a.unknown, amount.greatest)
    } else {
        unless(a.is_zero(), ALL_BITS)
    }
}

/// The unknown bits of what an operation gives of two registers.
#[inline(always)]
pub(crate) fn register_unknown(operation: RegisterOperation, a: PartialWord, b: PartialWord) -> u32
    ensures { result ≡ register_unknown operation a b }
{
    match operation {
        RegisterOperation::Add => sum_unknown(a, b),
        RegisterOperation::Sub => difference_unknown(a, b),
        RegisterOperation::Sll => shifted_unknown(ShiftOperation::Slli, a, b),
        RegisterOperation::Slt => unless(decides_signed_less(a, b), 1),
        RegisterOperation::Sltu => unless(decides_less(a, b), 1),
        RegisterOperation::Xor => xor_unknown(a, b),
        RegisterOperation::Srl => shifted_unknown(ShiftOperation::Srli, a, b),
        RegisterOperation::Sra => shifted_unknown(ShiftOperation::Srai, a, b),
        RegisterOperation::Or => or_unknown(a, b),
        RegisterOperation::And => and_unknown(a, b),
    }
}

/// Whether an operation of a register with itself gives one number, whatever the register holds.
#[inline(always)]
pub(crate) fn cancels(operation: RegisterOperation) -> bool
    ensures { result ≡ cancels operation }
{
    match operation {
        RegisterOperation::Sub
        | RegisterOperation::Slt
        | RegisterOperation::Sltu
        | RegisterOperation::Xor => true,
        RegisterOperation::Add
        | RegisterOperation::Sll
        | RegisterOperation::Srl
        | RegisterOperation::Sra
        | RegisterOperation::Or
        | RegisterOperation::And => false,
    }
}

/// The unknown bits of what an operation gives of a register and an immediate.
#[inline(always)]
pub(crate) fn immediate_unknown(
    operation: ImmediateOperation,
    a: PartialWord,
    b: PartialWord,
) -> u32
    ensures { result ≡ immediate_unknown operation a b }
{
    match operation {
        ImmediateOperation::Addi => sum_unknown(a, b),
        ImmediateOperation::Slti => unless(decides_signed_less(a, b), 1),
        ImmediateOperation::Sltiu => unless(decides_less(a, b), 1),
        ImmediateOperation::Xori => xor_unknown(a, b),
        ImmediateOperation::Ori => or_unknown(a, b),
        ImmediateOperation::Andi => and_unknown(a, b),
    }
}

/// The unknown bits of a half of the product of two registers.
#[inline(always)]
pub(crate) fn multiply_unknown(operation: MultiplyOperation, a: PartialWord, b: PartialWord) -> u32
    ensures { result ≡ multiply_unknown operation a b }
{
    match operation {
        MultiplyOperation::Mul => {
            unless(product_is_zero(a, b), from_lowest(a.unknown | b.unknown))
        }
        MultiplyOperation::Mulh | MultiplyOperation::Mulhsu | MultiplyOperation::Mulhu => {
            unless(product_is_zero(a, b) || are_known(a, b), ALL_BITS)
        }
    }
}

/// The unknown bits of the quotient or the remainder of two registers.
#[inline(always)]
pub(crate) fn divide_unknown(_operation: DivideOperation, a: PartialWord, b: PartialWord) -> u32
    ensures { result ≡ divide_unknown _operation a b }
{
    unless(are_known(a, b), ALL_BITS)
}
