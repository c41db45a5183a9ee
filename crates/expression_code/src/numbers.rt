// Numbers in instructions: of an operator and a number that an instruction holds, what is made of the other operand.

ghost use Rattle.std.specs.Prelude.{◌≡◌};
ghost use Rattle.expression_code.specs.NumberRows.{number_of, is_short, held, shifted, above_zero, low_bits};
ghost use Rattle.expression_code.specs.NumberRows.{masked, number_row, right_row, left_row};
ghost use Rattle.expression_code.specs.NumberRows.{chooses_zero, is_sign};
ghost use Rattle.expression_code.specs.Below.{term_tree};

use crate::emit::NEAR;
use crate::layout::Layout;
use inline::Term;
use language::{BinaryOperator, PrefixOperator};
use rv_code::{Immediate12, ImmediateOperation, ShiftAmount, ShiftOperation};
use word::{Width, negate};

/// What is made of the outcome of an operator's instruction: nothing more, whether it is 0, whether it is not, or its
/// cut to the width.
#[derive(Clone, Copy)]
pub enum Finish {
    Alone,
    GivesZero,
    GivesMore,
    Narrowed,
}

/// What is made of one operand with the number that is the other: by an instruction that holds it as an immediate in
/// two's complement or as the amount of a shift, or of which it is 0, that the operand is above; or by two shifts that
/// leave its low bits, of which they move so many others out.
#[derive(Clone, Copy)]
pub enum NumberStep {
    WithImmediate(ImmediateOperation, Immediate12),
    ByAmount(ShiftOperation, ShiftAmount),
    AboveZero,
    KeepsLow(ShiftAmount),
}

/// What an operator makes of an operand and a number: a step, and what is made of its outcome.
#[derive(Clone, Copy)]
pub struct NumberRow {
    pub finish: Finish,
    pub step: NumberStep,
}

/// The word that an expression is known to be.
pub fn number(term: &Term) -> Option<u32>
    ensures { result ≡ number_of (term_tree term.now) }
{
    match term {
        Term::Number(value, _) => Some(*value),
        Term::Truth(value) => Some(u32::from(*value)),
        _ => None,
    }
}

/// Whether 12 bits hold a word in two's complement: one that is less than 2048, or less than 0 by 2048 at most.
fn is_short(n: u64) -> bool
    ensures { result ≡ is_short n }
{
    let words = 1_u64 << 32;
    n < u64::from(NEAR) || (words - 2049 < n && n < words)
}

/// An instruction with a number, where it holds it, and what is made of its outcome.
fn held(operation: ImmediateOperation, finish: Finish, n: u64) -> Option<NumberRow>
    ensures { result ≡ held operation finish n }
{
    if is_short(n) {
        let field = Immediate12::from_bits((n % 4096) as u32);
        Some(NumberRow {
            finish,
            step: NumberStep::WithImmediate(operation, field),
        })
    } else {
        None
    }
}

/// A shift by an amount, of which the low five bits count.
fn shifted(operation: ShiftOperation, amount: u32) -> NumberRow
    ensures { result ≡ shifted operation amount }
{
    NumberRow {
        finish: Finish::Narrowed,
        step: NumberStep::ByAmount(operation, ShiftAmount::from_bits(amount)),
    }
}

/// Whether the operand is more than 0.
fn above_zero() -> NumberRow
    ensures { result ≡ above_zero }
{
    NumberRow {
        finish: Finish::Alone,
        step: NumberStep::AboveZero,
    }
}

/// The low bits, where the number is all ones below its leading zeros.
fn low_bits(n: u32) -> Option<NumberRow>
    ensures { result ≡ low_bits n }
{
    let others = n.leading_zeros();
    if u64::from(n) + 1 == 1_u64 << (32 - others) {
        Some(NumberRow {
            finish: Finish::Alone,
            step: NumberStep::KeepsLow(ShiftAmount::from_bits(others)),
        })
    } else {
        None
    }
}

/// The bits that a number has.
fn masked(n: u32) -> Option<NumberRow>
    ensures { result ≡ masked n }
{
    let word = u64::from(n);
    if is_short(word) {
        held(ImmediateOperation::Andi, Finish::Alone, word)
    } else {
        low_bits(n)
    }
}

/// The row of an operator and the number that is its right operand, where an instruction holds it.
fn number_row(operator: BinaryOperator, n: u32) -> Option<NumberRow>
    ensures { result ≡ number_row operator n }
{
    use ImmediateOperation::{Addi, Ori, Sltiu, Xori};
    let word = u64::from(n);
    let less = u64::from(negate(Width::W32, n));
    match operator {
        BinaryOperator::Equal if n == 0 => held(Sltiu, Finish::Alone, 1),
        BinaryOperator::Equal => held(Addi, Finish::GivesZero, less),
        BinaryOperator::Unequal if n == 0 => Some(above_zero()),
        BinaryOperator::Unequal => held(Addi, Finish::GivesMore, less),
        BinaryOperator::Less => held(Sltiu, Finish::Alone, word),
        BinaryOperator::LessOrEqual => held(Sltiu, Finish::Alone, word + 1),
        BinaryOperator::Greater if n == 0 => Some(above_zero()),
        BinaryOperator::Greater => held(Sltiu, Finish::GivesZero, word + 1),
        BinaryOperator::GreaterOrEqual => held(Sltiu, Finish::GivesZero, word),
        BinaryOperator::BitOr => held(Ori, Finish::Alone, word),
        BinaryOperator::BitXor => held(Xori, Finish::Alone, word),
        BinaryOperator::BitAnd => masked(n),
        BinaryOperator::ShiftLeft => Some(shifted(ShiftOperation::Slli, n)),
        BinaryOperator::ShiftRight => Some(shifted(ShiftOperation::Srli, n)),
        BinaryOperator::Add => held(Addi, Finish::Narrowed, word),
        BinaryOperator::Subtract => held(Addi, Finish::Narrowed, less),
        _ => None,
    }
}

/// The row of an operator whose right operand is this expression, where that is a number that an instruction holds.
pub fn right_row(layout: &Layout<'_>, operator: BinaryOperator, right: &Term) -> Option<NumberRow>
    ensures { result ≡ right_row layout.now.allocation operator (term_tree right.now) }
{
    if layout.immediates() {
        number_row(operator, number(right)?)
    } else {
        None
    }
}

/// The row of an operator whose left operand is this expression, where that is a number that an instruction holds.
pub fn left_row(layout: &Layout<'_>, operator: BinaryOperator, left: &Term) -> Option<NumberRow>
    ensures { result ≡ left_row layout.now.allocation operator (term_tree left.now) }
{
    if layout.immediates() {
        number_row(operator.swapped()?, number(left)?)
    } else {
        None
    }
}

/// Whether a choice, whose third operand is this expression, is one between a value and 0, which takes no register
/// then.
pub fn chooses_zero(layout: &Layout<'_>, otherwise: &Term) -> bool
    ensures { result ≡ chooses_zero layout.now.allocation (term_tree otherwise.now) }
{
    layout.immediates() && matches!(number(otherwise), Some(0))
}

/// Whether an operator before another one, whose right operand is this expression, makes 0 less a word that is moved
/// down by 31 bits.
pub fn is_sign(
    layout: &Layout<'_>,
    before: PrefixOperator,
    width: Width,
    operator: BinaryOperator,
    right: &Term,
) -> bool
    ensures { result ≡ is_sign layout.now.allocation before width operator (term_tree right.now) }
{
    match (before, width, operator) {
        (PrefixOperator::Negate, Width::W32, BinaryOperator::ShiftRight) => {
            layout.immediates() && matches!(number(right), Some(31))
        }
        _ => false,
    }
}
