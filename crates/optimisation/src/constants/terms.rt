// Expressions in which what is known is a number.

ghost use Rattle.std.specs.Prelude.{◌≡◌, map, IfOk};
ghost use Rattle.std.specs.Option.{option_and_then, option_map};
ghost use Rattle.optimisation.specs.Below.{Not, prefix, term_tree};
ghost use Rattle.optimisation.specs.constants.private.Folding as folding;
ghost use Rattle.optimisation.specs.constants.private.Known.{words_of};
ghost use Rattle.optimisation.specs.constants.private.Folding.{chosen, constant_of, decision, number_of, numbers_of};
ghost use Rattle.optimisation.specs.constants.private.Folding.{simple};

use crate::constants::fields::{narrowed, operation};
use crate::constants::known::{Constant, KnownWords};
use crate::constants::operators::{
    decided_by_left, decided_by_right, folded, is_left_identity, is_right_identity,
};
use crate::constants::powers::{step_of, swapped_step};
use inline::Term;
use language::{BinaryOperator, Kind, Place, PrefixOperator, is_true};
use std::alloc::{AllocError, Global};
use word::Width;

/// The numbers of a counter: from the first up to the last before the second.
#[derive(Clone, Copy)]
pub struct CounterRange {
    pub low: u32,
    pub high: u32,
}

/// What an expression is, where it is a number.
pub fn constant_of(term: &Term) -> Option<Constant>
    ensures { result ≡ constant_of (term_tree term.now) }
{
    match term {
        Term::Number(value, kind) => Some(Constant {
            value: *value,
            kind: *kind,
        }),
        Term::Truth(value) => Some(Constant {
            value: word::from_bool(*value),
            kind: Kind::Boolean,
        }),
        _ => None,
    }
}

/// A number that is known.
pub fn number_of(constant: Constant) -> Term
    ensures { term_tree result ≡ number_of constant }
{
    Term::Number(constant.value, constant.kind)
}

/// What a condition says, where it is a number.
pub fn decision(condition: &Term) -> Option<bool>
    ensures { result ≡ decision (term_tree condition.now) }
{
    Some(is_true(constant_of(condition)?.value))
}

/// `!` and its operand.
fn not(alloc: Global, width: Width, operand: Term) -> Result<Term, AllocError>
    ensures { IfOk result (λ term. term_tree term ≡ prefix Not width (term_tree operand)) }
{
    let operand = Box::new(alloc, operand)?;
    Ok(Term::Prefix(PrefixOperator::Not, width, operand))
}

/// `!` and its operand, simple: of a comparison the opposite one, of another `!` the operand of that.
fn negation_of(alloc: Global, width: Width, operand: Term) -> Result<Term, AllocError>
    ensures { IfOk result (λ term. term_tree term ≡ folding.negation_of width (term_tree operand)) }
{
    match operand {
        Term::Prefix(operator, inner, operand) => match operator {
            PrefixOperator::Not => Ok(Box::into_inner(operand)),
            PrefixOperator::Complement | PrefixOperator::Negate => {
                not(alloc, width, Term::Prefix(operator, inner, operand))
            }
        },
        Term::Binary(place, operator, inner, left, right) => match operator.opposite() {
            Some(opposite) => Ok(Term::Binary(place, opposite, inner, left, right)),
            None => {
                let whole = Term::Binary(place, operator, inner, left, right);
                not(alloc, width, whole)
            }
        },
        other => not(alloc, width, other),
    }
}

/// A prefix operator and its operand, simple, where that is no number.
fn applied(
    alloc: Global,
    operator: PrefixOperator,
    width: Width,
    operand: Term,
) -> Result<Term, AllocError>
    ensures { IfOk result (λ term. term_tree term ≡ folding.applied operator width (term_tree operand)) }
{
    match operator {
        PrefixOperator::Not => negation_of(alloc, width, operand),
        PrefixOperator::Complement | PrefixOperator::Negate => {
            let operand = Box::new(alloc, operand)?;
            Ok(Term::Prefix(operator, width, operand))
        }
    }
}

/// A prefix operator and its operand, simple.
fn prefixed(
    alloc: Global,
    operator: PrefixOperator,
    width: Width,
    operand: Term,
) -> Result<Term, AllocError>
    ensures { IfOk result (λ term. term_tree term ≡ folding.prefixed operator width (term_tree operand)) }
{
    match constant_of(&operand) {
        Some(known) => Ok(number_of(Constant {
            value: operator.apply(width, known.value),
            kind: known.kind,
        })),
        None => applied(alloc, operator, width, operand),
    }
}

/// What an operator comes to, where both its operands are numbers.
fn between(operator: BinaryOperator, width: Width, left: &Term, right: &Term) -> Option<Constant>
    ensures { result
        ≡ folding.between operator width (constant_of (term_tree left.now)) (constant_of (term_tree right.now)) }
{
    let one = constant_of(left)?;
    let other = constant_of(right)?;
    let value = folded(operator, width, one.value, other.value)?;
    Some(Constant {
        value,
        kind: operator.result_kind(one.kind),
    })
}

/// What the left operand of an operator decides alone, where it is a number.
fn left_decides(operator: BinaryOperator, left: &Term) -> Option<bool>
    ensures { result
        ≡ option_and_then (λ c. folding.decided_by_left operator c.value) (constant_of (term_tree left.now)) }
{
    decided_by_left(operator, constant_of(left)?.value)
}

/// And what the right one does.
fn right_decides(operator: BinaryOperator, right: &Term) -> Option<bool>
    ensures { result
        ≡ option_and_then (λ c. folding.decided_by_right operator c.value) (constant_of (term_tree right.now)) }
{
    decided_by_right(operator, constant_of(right)?.value)
}

/// Whether the right operand of an operator is a number that leaves the left one as it is.
fn leaves_left(operator: BinaryOperator, width: Width, right: &Term) -> bool
    ensures { result ≡ folding.is_among (folding.is_right_identity operator width) (constant_of (term_tree right.now)) }
{
    match constant_of(right) {
        Some(known) => is_right_identity(operator, width, known.value),
        None => false,
    }
}

/// Whether the left operand of an operator is a number that leaves the right one as it is.
fn leaves_right(operator: BinaryOperator, width: Width, left: &Term) -> bool
    ensures { result ≡ folding.is_among (folding.is_left_identity operator width) (constant_of (term_tree left.now)) }
{
    match constant_of(left) {
        Some(known) => is_left_identity(operator, width, known.value),
        None => false,
    }
}

/// The comparison that one with a number on its left is, its operands swapped. `opposite` tells whether an
/// operator is a comparison: only these have an opposite one, and `swapped` alone swaps the operands of others too.
fn swapped_by(operator: BinaryOperator, left: &Term) -> Option<BinaryOperator>
    ensures { result ≡ folding.swapped_by operator (constant_of (term_tree left.now)) }
{
    match constant_of(left) {
        Some(_) => operator.opposite().and(operator.swapped()),
        None => None,
    }
}

/// An operator and its two operands: those of a comparison with a number on its left are swapped, and where they leave
/// some bits of a word, two shifts.
fn swapped(
    alloc: Global,
    place: Place,
    operator: BinaryOperator,
    width: Width,
    left: Term,
    right: Term,
) -> Result<Term, AllocError>
    ensures { IfOk result (λ term.
        term_tree term ≡ folding.swapped place operator width (term_tree left) (term_tree right)) }
{
    match swapped_by(operator, &left) {
        Some(comparison) => operation(alloc, place, comparison, width, right, left),
        None => narrowed(alloc, place, operator, width, left, right),
    }
}

/// An operator and its two operands: where one is a power of two, a shift or a mask of the other, and else what they
/// are swapped or narrowed.
fn stepped(
    alloc: Global,
    place: Place,
    operator: BinaryOperator,
    width: Width,
    left: Term,
    right: Term,
) -> Result<Term, AllocError>
    ensures { IfOk result (λ term.
        term_tree term ≡ folding.stepped place operator width (term_tree left) (term_tree right)) }
{
    if let Some(step) = step_of(operator, constant_of(&right)) {
        let number = number_of(step.number);
        return narrowed(alloc, place, step.operator, width, left, number);
    }
    match swapped_step(operator, constant_of(&left)) {
        Some(step) => {
            let number = number_of(step.number);
            narrowed(alloc, place, step.operator, width, right, number)
        }
        None => swapped(alloc, place, operator, width, left, right),
    }
}

/// An operator and its two operands: where the one leaves the other as it is, that one alone.
fn reduced(
    alloc: Global,
    place: Place,
    operator: BinaryOperator,
    width: Width,
    left: Term,
    right: Term,
) -> Result<Term, AllocError>
    ensures { IfOk result (λ term.
        term_tree term ≡ folding.reduced place operator width (term_tree left) (term_tree right)) }
{
    if leaves_left(operator, width, &right) {
        Ok(left)
    } else if leaves_right(operator, width, &left) {
        Ok(right)
    } else {
        stepped(alloc, place, operator, width, left, right)
    }
}

/// An operator and its two operands, simple.
fn binary(
    alloc: Global,
    place: Place,
    operator: BinaryOperator,
    width: Width,
    left: Term,
    right: Term,
) -> Result<Term, AllocError>
    ensures { IfOk result (λ term.
        term_tree term ≡ folding.operated_on place operator width (term_tree left) (term_tree right)) }
{
    match between(operator, width, &left, &right) {
        Some(known) => Ok(number_of(known)),
        None => match left_decides(operator, &left).or(right_decides(operator, &right)) {
            Some(truth) => Ok(Term::Truth(truth)),
            None => reduced(alloc, place, operator, width, left, right),
        },
    }
}

/// An operand, rotated.
fn rotate(alloc: Global, width: Width, operand: Term, amount: u32) -> Result<Term, AllocError>
    ensures { IfOk result (λ term. term_tree term ≡ folding.rotated width (term_tree operand) amount) }
{
    match constant_of(&operand) {
        Some(known) => Ok(number_of(Constant {
            value: word::rotate_left(width, known.value, amount),
            kind: known.kind,
        })),
        None => Ok(Term::Rotate(width, Box::new(alloc, operand)?, amount)),
    }
}

/// An operand, as a number of this kind.
fn convert(alloc: Global, kind: Kind, operand: Term) -> Result<Term, AllocError>
    ensures { IfOk result (λ term. term_tree term ≡ folding.converted_to kind (term_tree operand)) }
{
    match constant_of(&operand) {
        Some(known) => Ok(number_of(Constant {
            value: word::convert(kind.width(), known.value),
            kind,
        })),
        None => Ok(Term::Convert(kind, Box::new(alloc, operand)?)),
    }
}

/// An expression, where this is known of the variables.
#[cycle(simple)]
pub fn simple(alloc: Global, known: &KnownWords, term: &Term) -> Result<Term, AllocError>
    ensures { IfOk result (λ simpler. term_tree simpler ≡ simple (words_of known.now) (term_tree term.now)) }
{
    match term {
        Term::Number(value, kind) => Ok(Term::Number(*value, *kind)),
        Term::Truth(value) => Ok(Term::Truth(*value)),
        Term::Variable(number) => match known.of(*number) {
            Some(word) => Ok(number_of(word)),
            None => Ok(Term::Variable(known.source_of(*number))),
        },
        Term::Prefix(operator, width, operand) => {
            let operand = simple(alloc, known, operand)?;
            prefixed(alloc, *operator, *width, operand)
        }
        Term::Binary(place, operator, width, left, right) => {
            let left = simple(alloc, known, left)?;
            let right = simple(alloc, known, right)?;
            binary(alloc, *place, *operator, *width, left, right)
        }
        Term::Rotate(width, operand, amount) => {
            let operand = simple(alloc, known, operand)?;
            rotate(alloc, *width, operand, *amount)
        }
        Term::Convert(kind, operand) => {
            let operand = simple(alloc, known, operand)?;
            convert(alloc, *kind, operand)
        }
        Term::Select(condition, accepted, otherwise) => {
            let condition = simple(alloc, known, condition)?;
            select(alloc, known, condition, accepted, otherwise)
        }
        Term::Element(place, array, size, index) => {
            let index = boxed(alloc, known, index)?;
            Ok(Term::Element(*place, *array, *size, index))
        }
    }
}

/// The one of two that is chosen, where the condition is a number; else the choice between them.
#[cycle(simple)]
fn select(
    alloc: Global,
    known: &KnownWords,
    condition: Term,
    accepted: &Term,
    otherwise: &Term,
) -> Result<Term, AllocError>
    ensures { IfOk result (λ term. term_tree term
        ≡ chosen (decision (term_tree condition)) (term_tree condition)
        (simple (words_of known.now) (term_tree accepted.now))
        (simple (words_of known.now) (term_tree otherwise.now))) }
{
    match decision(&condition) {
        Some(true) => simple(alloc, known, accepted),
        Some(false) => simple(alloc, known, otherwise),
        None => {
            let condition = Box::new(alloc, condition)?;
            let accepted = boxed(alloc, known, accepted)?;
            let otherwise = boxed(alloc, known, otherwise)?;
            Ok(Term::Select(condition, accepted, otherwise))
        }
    }
}

/// An expression, in a box of its own.
#[cycle(simple)]
fn boxed(alloc: Global, known: &KnownWords, term: &Term) -> Result<Box<Term>, AllocError>
    ensures { IfOk result (λ simpler.
        term_tree simpler.value ≡ simple (words_of known.now) (term_tree term.now)) }
{
    let simpler = simple(alloc, known, term)?;
    Ok(Box::new(alloc, simpler)?)
}

/// Expressions, in their order.
pub fn all_simple(
    alloc: Global,
    known: &KnownWords,
    terms: &[Term],
) -> Result<Vec<Term>, AllocError>
    ensures { IfOk result (λ simpler.
        map term_tree simpler.items ≡ map (simple (words_of known.now)) (map term_tree terms.now)) }
{
    let mut simpler = Vec::new(alloc);
    for term in terms {
        simpler.push(simple(alloc, known, term)?)?;
    }
    Ok(simpler)
}

/// An expression, where there is one.
pub fn simple_where_any(
    alloc: Global,
    known: &KnownWords,
    term: Option<&Term>,
) -> Result<Option<Term>, AllocError>
    ensures { IfOk result (λ simpler. option_map term_tree simpler
        ≡ option_map (simple (words_of known.now)) (option_map (λ term. term_tree term.now) term.entry)) }
{
    match term {
        Some(term) => Ok(Some(simple(alloc, known, term)?)),
        None => Ok(None),
    }
}

/// The numbers of a loop's counter, where both its bounds are numbers, and it makes no more iterations than this.
pub fn numbers_of(most: u32, low: &Term, high: &Term) -> Option<CounterRange>
    ensures { result ≡ numbers_of most (constant_of (term_tree low.now)) (constant_of (term_tree high.now)) }
{
    let low = constant_of(low)?.value;
    let high = constant_of(high)?.value;
    if high.saturating_sub(low) <= most {
        Some(CounterRange { low, high })
    } else {
        None
    }
}
