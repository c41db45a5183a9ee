// Which expression is the upper word of a product, and of which variables.

ghost use Rattle.std.specs.Prelude.{◌≡◌};
ghost use Rattle.optimisation.specs.Below.{term_tree};
ghost use Rattle.optimisation.specs.high_products.private.Shapes as shapes;

use crate::constants::copy_propagation::variable_of;
use crate::constants::fields::{is_bit_and, is_shift_right};
use inline::Term;
use language::BinaryOperator;

/// What moves the high half of a word down.
const HALF: u32 = 16;

/// What masks the low half of a word.
const LOW_HALF: u32 = 0xffff;

/// The variables of two words that are multiplied.
#[derive(Clone, Copy)]
pub struct Factors {
    pub one: u32,
    pub other: u32,
}

/// A half of a variable's word.
#[derive(Clone, Copy)]
pub enum Half {
    High(u32),
    Low(u32),
}

/// Whether an operator is `+`.
fn is_add(operator: BinaryOperator) -> bool
    ensures { result ≡ shapes.is_add operator }
{
    matches!(operator, BinaryOperator::Add)
}

/// Whether an operator is `*`.
fn is_multiply(operator: BinaryOperator) -> bool
    ensures { result ≡ shapes.is_multiply operator }
{
    matches!(operator, BinaryOperator::Multiply)
}

/// Whether an expression is this number.
fn is_number(term: &Term, number: u32) -> bool
    ensures { result ≡ shapes.is_number number (term_tree term.now) }
{
    match term {
        Term::Number(value, _) => *value == number,
        _ => false,
    }
}

/// Which variable's word an expression is the high half of, where it is one.
fn high_half(term: &Term) -> Option<u32>
    ensures { result ≡ shapes.high_half (term_tree term.now) }
{
    let Term::Binary(_, operator, width, left, right) = term else {
        return None;
    };
    if is_shift_right(*operator) && width.bits() == 32 && is_number(right, HALF) {
        variable_of(left)
    } else {
        None
    }
}

/// Which variable's word an expression is the low half of, where it is one.
fn low_half(term: &Term) -> Option<u32>
    ensures { result ≡ shapes.low_half (term_tree term.now) }
{
    let Term::Binary(_, operator, width, left, right) = term else {
        return None;
    };
    if is_bit_and(*operator) && width.bits() == 32 && is_number(right, LOW_HALF) {
        variable_of(left)
    } else {
        None
    }
}

/// Whether a variable was found, and is this one.
fn is_found(found: Option<u32>, variable: u32) -> bool
    ensures { result ≡ shapes.is_found variable found }
{
    match found {
        None => false,
        Some(other) => other == variable,
    }
}

/// Whether an expression is this half.
fn is_half(term: &Term, half: Half) -> bool
    ensures { result ≡ shapes.is_half half (term_tree term.now) }
{
    match half {
        Half::High(variable) => is_found(high_half(term), variable),
        Half::Low(variable) => is_found(low_half(term), variable),
    }
}

/// Whether an expression is the product of two halves.
fn is_product(term: &Term, one: Half, other: Half) -> bool
    ensures { result ≡ shapes.is_product one other (term_tree term.now) }
{
    let Term::Binary(_, operator, width, left, right) = term else {
        return false;
    };
    is_multiply(*operator) && width.bits() == 32 && is_half(left, one) && is_half(right, other)
}

/// Whether an expression is the high half of the product of two halves.
fn is_upper(term: &Term, one: Half, other: Half) -> bool
    ensures { result ≡ shapes.is_upper one other (term_tree term.now) }
{
    let Term::Binary(_, operator, width, left, right) = term else {
        return false;
    };
    is_shift_right(*operator)
        && width.bits() == 32
        && is_product(left, one, other)
        && is_number(right, HALF)
}

/// Whether an expression is the low half of the product of two halves.
fn is_lower(term: &Term, one: Half, other: Half) -> bool
    ensures { result ≡ shapes.is_lower one other (term_tree term.now) }
{
    let Term::Binary(_, operator, width, left, right) = term else {
        return false;
    };
    is_bit_and(*operator)
        && width.bits() == 32
        && is_product(left, one, other)
        && is_number(right, LOW_HALF)
}

/// Whether an expression is the sum of what the product of the low halves carries and of the low half of one of the
/// products in the middle.
fn is_first_sum(term: &Term, factors: Factors) -> bool
    ensures { result ≡ shapes.is_first_sum factors (term_tree term.now) }
{
    let Term::Binary(_, operator, width, left, right) = term else {
        return false;
    };
    is_add(*operator)
        && width.bits() == 32
        && is_upper(left, Half::Low(factors.one), Half::Low(factors.other))
        && is_lower(right, Half::High(factors.one), Half::Low(factors.other))
}

/// And of the low half of the other.
fn is_second_sum(term: &Term, factors: Factors) -> bool
    ensures { result ≡ shapes.is_second_sum factors (term_tree term.now) }
{
    let Term::Binary(_, operator, width, left, right) = term else {
        return false;
    };
    is_add(*operator)
        && width.bits() == 32
        && is_first_sum(left, factors)
        && is_lower(right, Half::Low(factors.one), Half::High(factors.other))
}

/// Whether an expression is what is carried into the upper word.
fn is_carry(term: &Term, factors: Factors) -> bool
    ensures { result ≡ shapes.is_carry factors (term_tree term.now) }
{
    let Term::Binary(_, operator, width, left, right) = term else {
        return false;
    };
    is_shift_right(*operator)
        && width.bits() == 32
        && is_second_sum(left, factors)
        && is_number(right, HALF)
}

/// The factors of a product of high halves.
fn of_product(term: &Term) -> Option<Factors>
    ensures { result ≡ shapes.of_product (term_tree term.now) }
{
    let Term::Binary(_, operator, width, left, right) = term else {
        return None;
    };
    if is_multiply(*operator) && width.bits() == 32 {
        let one = high_half(left)?;
        let other = high_half(right)?;
        Some(Factors { one, other })
    } else {
        None
    }
}

/// The factors of the sum of that and of the high half of one of the products in the middle.
fn of_two(term: &Term) -> Option<Factors>
    ensures { result ≡ shapes.of_two (term_tree term.now) }
{
    let Term::Binary(_, operator, width, left, right) = term else {
        return None;
    };
    if is_add(*operator) && width.bits() == 32 {
        let factors = of_product(left)?;
        let also = is_upper(right, Half::High(factors.one), Half::Low(factors.other));
        also.then_some(factors)
    } else {
        None
    }
}

/// The factors of the sum of that and of the high half of the other.
fn of_three(term: &Term) -> Option<Factors>
    ensures { result ≡ shapes.of_three (term_tree term.now) }
{
    let Term::Binary(_, operator, width, left, right) = term else {
        return None;
    };
    if is_add(*operator) && width.bits() == 32 {
        let factors = of_two(left)?;
        let also = is_upper(right, Half::Low(factors.one), Half::High(factors.other));
        also.then_some(factors)
    } else {
        None
    }
}

/// The factors of which an expression is the upper word of the product, where it is one.
pub fn upper_word(term: &Term) -> Option<Factors>
    ensures { result ≡ shapes.upper_word (term_tree term.now) }
{
    let Term::Binary(_, operator, width, left, right) = term else {
        return None;
    };
    if is_add(*operator) && width.bits() == 32 {
        let factors = of_three(left)?;
        is_carry(right, factors).then_some(factors)
    } else {
        None
    }
}
