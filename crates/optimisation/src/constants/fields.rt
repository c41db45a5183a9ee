// Bits of a word, which a shift down and a mask leave, and two shifts too.

ghost use Rattle.std.specs.Prelude.{◌≡◌, IfOk};
ghost use Rattle.optimisation.specs.Below.{binary, term_tree};
ghost use Rattle.optimisation.specs.constants.private.Fields as fields;
ghost use Rattle.optimisation.specs.constants.private.Folding.{constant_of};
ghost use Rattle.optimisation.specs.constants.private.Folding as folding;

use crate::constants::known::Constant;
use crate::constants::terms::constant_of;
use inline::Term;
use language::{BinaryOperator, Kind, Place};
use std::alloc::{AllocError, Global};
use word::Width;

/// The first mask that no instruction holds.
const FIRST_LONG_MASK: u32 = 2_048;

/// How far bits of a word go up and then down, by amounts of this kind.
#[derive(Clone, Copy)]
pub struct BitField {
    up: u32,
    down: u32,
    kind: Kind,
}

/// How many high bits a mask clears, where it is ones alone.
fn cleared_by(mask: u32) -> Option<u32>
    ensures { result ≡ fields.cleared_by mask }
{
    let others = mask.leading_zeros();
    if others < 32 && u64::from(mask) + 1 == 1_u64 << (32 - others) {
        Some(others)
    } else {
        None
    }
}

/// How far the bits go that a mask leaves of a word that is moved down by an amount.
fn field_within(amount: Constant, mask: u32, others: u32) -> Option<BitField>
    ensures { result ≡ fields.field_within amount mask (Some others) }
{
    if amount.value == others || (amount.value < others && mask >= FIRST_LONG_MASK) {
        Some(BitField {
            up: others - amount.value,
            down: others,
            kind: amount.kind,
        })
    } else {
        None
    }
}

/// The bits that are left by a mask and an amount, where both are numbers.
fn field_of(mask: Option<Constant>, amount: Option<Constant>) -> Option<BitField>
    ensures { result ≡ fields.field_of mask amount }
{
    let mask = mask?.value;
    let amount = amount?;
    let others = cleared_by(mask)?;
    field_within(amount, mask, others)
}

/// Whether an operator is `&`.
pub fn is_bit_and(operator: BinaryOperator) -> bool
    ensures { result ≡ fields.is_bit_and operator }
{
    matches!(operator, BinaryOperator::BitAnd)
}

/// Whether an operator is `>>`.
pub fn is_shift_right(operator: BinaryOperator) -> bool
    ensures { result ≡ fields.is_shift_right operator }
{
    matches!(operator, BinaryOperator::ShiftRight)
}

/// The mask that an operator has on its right, where that is a number.
fn mask_of(operator: BinaryOperator, right: &Term) -> Option<Constant>
    ensures { result ≡ fields.mask_of operator (constant_of (term_tree right.now)) }
{
    if is_bit_and(operator) {
        constant_of(right)
    } else {
        None
    }
}

/// By how much an operator moves a word of 32 bits down, where that is a number.
fn amount_of(operator: BinaryOperator, width: Width, right: &Term) -> Option<Constant>
    ensures { result ≡ fields.amount_of operator width (constant_of (term_tree right.now)) }
{
    if is_shift_right(operator) && width.bits() == 32 {
        constant_of(right)
    } else {
        None
    }
}

/// An operator between two operands.
pub fn operation(
    alloc: Global,
    place: Place,
    operator: BinaryOperator,
    width: Width,
    left: Term,
    right: Term,
) -> Result<Term, AllocError>
    ensures { IfOk result (λ term. term_tree term ≡ binary place operator width (term_tree left) (term_tree right)) }
{
    let left = Box::new(alloc, left)?;
    let right = Box::new(alloc, right)?;
    Ok(Term::Binary(place, operator, width, left, right))
}

/// A word, moved up where it has to be.
fn lifted(
    alloc: Global,
    place: Place,
    width: Width,
    word: Term,
    field: BitField,
) -> Result<Term, AllocError>
    ensures { IfOk result (λ term. term_tree term ≡ fields.lifted place width (term_tree word) field) }
{
    if field.up == 0 {
        Ok(word)
    } else {
        let amount = Term::Number(field.up, field.kind);
        operation(alloc, place, BinaryOperator::ShiftLeft, width, word, amount)
    }
}

/// And then down.
fn moved(
    alloc: Global,
    place: Place,
    width: Width,
    word: Term,
    field: BitField,
) -> Result<Term, AllocError>
    ensures { IfOk result (λ term. term_tree term ≡ fields.moved place width (term_tree word) field) }
{
    let word = lifted(alloc, place, width, word, field)?;
    let amount = Term::Number(field.down, field.kind);
    operation(
        alloc,
        place,
        BinaryOperator::ShiftRight,
        width,
        word,
        amount,
    )
}

/// An operator and its two operands: where it leaves some bits of a word, two shifts.
pub fn narrowed(
    alloc: Global,
    place: Place,
    operator: BinaryOperator,
    width: Width,
    left: Term,
    right: Term,
) -> Result<Term, AllocError>
    ensures { IfOk result (λ term. term_tree term
        ≡ folding.narrowed place (fields.mask_of operator (constant_of (term_tree right))) (term_tree left)
        (binary place operator width (term_tree left) (term_tree right))) }
{
    let mask = mask_of(operator, &right);
    match left {
        Term::Binary(inner, down, full, word, by) => {
            match field_of(mask, amount_of(down, full, &by)) {
                Some(field) => moved(alloc, place, full, Box::into_inner(word), field),
                None => {
                    let left = Term::Binary(inner, down, full, word, by);
                    operation(alloc, place, operator, width, left, right)
                }
            }
        }
        other => operation(alloc, place, operator, width, other, right),
    }
}
