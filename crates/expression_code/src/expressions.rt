// An expression's code, and how many temporaries it has at once.

ghost use Rattle.std.specs.Prelude.{◌≡◌, ◌++◌, ◌+◌, ◌*◌, ◌≤◌, ◌<◌, is_some, length, OnOk, IfOk};
ghost use Rattle.expression_code.specs.Layout.{temporaries_offset, term_layout};
ghost use Rattle.expression_code.specs.Allocation.{register_of, slots_to, working_register};
ghost use Rattle.expression_code.specs.Registers.{first_spare, second_spare, third_spare};
ghost use Rattle.expression_code.specs.TermCode.{into_code, expr_code, operand, fetch_code};
ghost use Rattle.expression_code.specs.TermCode.{choice_or_zero_code, into_by, IsAmong, opposite_in};
ghost use Rattle.expression_code.specs.TermCode.{own_register, placed_code, reached_code, indexed_code};
ghost use Rattle.expression_code.specs.TermCode.{prefixed_code};
ghost use Rattle.expression_code.specs.Below.{height_of, term_tree};

use crate::frame_bytes::joined_word;
use crate::layout::Layout;
use crate::locations::{FIRST_SPARE, SECOND_SPARE, THIRD_SPARE, copy, fetch, keep};
use crate::numbers::{chooses_zero, is_sign, left_row, right_row};
use crate::operators::{ChoiceOperands, OperandRegisters};
use crate::truths::{emitted, opposite_in};
use crate::{emit, operators};
use inline::Term;
use language::{BinaryOperator, PrefixOperator};
use rv_code::{Instr, Reg};
use std::alloc::AllocError;
use word::Width;

/// How many temporaries an expression has at once, beside the one that it comes into.
pub fn height(term: &Term) -> u32
    requires { height_of (term_tree term.now) ≤ 6001 }
    ensures { result ≡ height_of (term_tree term.now) }
{
    match term {
        Term::Number(_, _) | Term::Truth(_) | Term::Variable(_) => 0,
        Term::Prefix(_, _, operand)
        | Term::Rotate(_, operand, _)
        | Term::Convert(_, operand)
        | Term::Element(_, _, _, operand) => height(operand),
        Term::Binary(_, _, _, left, right) => {
            let left = height(left);
            let right = height(right);
            left.max(1 + right)
        }
        Term::Select(condition, accepted, otherwise) => {
            let condition = height(condition);
            let accepted = height(accepted);
            let otherwise = height(otherwise);
            condition.max(1 + accepted.max(1 + otherwise))
        }
    }
}

/// The register of an operand, which is fetched into the spare one where it lies in a slot.
fn fetched(
    layout: &Layout<'_>,
    code: &mut Vec<Instr>,
    place: u32,
    term: &Term,
    spare: Reg,
) -> Result<Reg, AllocError>
    requires { temporaries_offset layout.now + 4 * slots_to layout.now.allocation.count place ≤ 65536 }
    ensures code { OnOk result (code.new.items ≡ code.old.items
        ++ fetch_code (operand (term_layout layout.now) place (term_tree term.now)) spare) }
    ensures register { IfOk result (λ r.
        r ≡ register_of (operand (term_layout layout.now) place (term_tree term.now)) spare) }
{
    let operand = layout.operand(place, term);
    fetch(code, &operand, spare)?;
    Ok(operand.register(spare))
}

/// The registers of a choice between expressions, whose operands are fetched where they lie in slots.
fn fetched_choice(
    layout: &Layout<'_>,
    code: &mut Vec<Instr>,
    place: u32,
    condition: &Term,
    accepted: &Term,
    otherwise: &Term,
) -> Result<ChoiceOperands, AllocError>
    requires { temporaries_offset layout.now + 4 * slots_to layout.now.allocation.count (place + 2) ≤ 65536 }
    ensures code { let terms = term_layout layout.now in
        OnOk result (code.new.items ≡ code.old.items
        ++ fetch_code (operand terms place (term_tree condition.now)) first_spare
        ++ fetch_code (operand terms (place + 1) (term_tree accepted.now)) second_spare
        ++ fetch_code (operand terms (place + 2) (term_tree otherwise.now)) third_spare) }
    ensures registers { let terms = term_layout layout.now in
        IfOk result (λ registers. registers ≡ record {
          is_opposite = is_some (opposite_in layout.now.allocation (term_tree condition.now));
          mask = working_register terms.allocation.count place first_spare;
          scratch = working_register terms.allocation.count (place + 1) second_spare;
          condition = register_of (operand terms place (term_tree condition.now)) first_spare;
          accepted = register_of (operand terms (place + 1) (term_tree accepted.now)) second_spare;
          otherwise = register_of (operand terms (place + 2) (term_tree otherwise.now)) third_spare;
        }) }
{
    let second = layout.place_behind(place, 1);
    let third = layout.place_behind(place, 2);
    let is_opposite = opposite_in(layout, condition).is_some();
    let condition = fetched(layout, code, place, condition, FIRST_SPARE)?;
    let accepted = fetched(layout, code, second, accepted, SECOND_SPARE)?;
    let otherwise = fetched(layout, code, third, otherwise, THIRD_SPARE)?;
    Ok(ChoiceOperands {
        is_opposite,
        mask: layout.working_register(place, FIRST_SPARE),
        scratch: layout.working_register(second, SECOND_SPARE),
        condition,
        accepted,
        otherwise,
    })
}

/// The registers of an operator between expressions, whose operands are fetched where they lie in slots.
fn fetched_operands(
    layout: &Layout<'_>,
    code: &mut Vec<Instr>,
    target: Reg,
    place: u32,
    left: &Term,
    right: &Term,
) -> Result<OperandRegisters, AllocError>
    requires { temporaries_offset layout.now + 4 * slots_to layout.now.allocation.count (place + 1) ≤ 65536 }
    ensures code { let terms = term_layout layout.now in
        OnOk result (code.new.items ≡ code.old.items
        ++ fetch_code (operand terms place (term_tree left.now)) first_spare
        ++ fetch_code (operand terms (place + 1) (term_tree right.now)) second_spare) }
    ensures registers { let terms = term_layout layout.now in
        IfOk result (λ registers. registers ≡ record {
          target = target;
          scratch = working_register terms.allocation.count (place + 1) second_spare;
          left = register_of (operand terms place (term_tree left.now)) first_spare;
          right = register_of (operand terms (place + 1) (term_tree right.now)) second_spare;
        }) }
{
    let next = layout.place_behind(place, 1);
    let left = fetched(layout, code, place, left, FIRST_SPARE)?;
    let right = fetched(layout, code, next, right, SECOND_SPARE)?;
    let scratch = layout.working_register(next, SECOND_SPARE);
    Ok(OperandRegisters {
        target,
        scratch,
        left,
        right,
    })
}

/// A choice between a value and 0, which are in their places, into a register. Both operands are fetched where they lie
/// in slots.
fn fetched_or_zero(
    layout: &Layout<'_>,
    code: &mut Vec<Instr>,
    target: Reg,
    place: u32,
    condition: &Term,
    accepted: &Term,
) -> Result<(), AllocError>
    requires { temporaries_offset layout.now + 4 * slots_to layout.now.allocation.count (place + 1) ≤ 65536 }
    ensures { let terms = term_layout layout.now in
        let c = operand terms place (term_tree condition.now) in
        let l = operand terms (place + 1) (term_tree accepted.now) in
        OnOk result (code.new.items ≡ code.old.items ++ fetch_code c first_spare ++ fetch_code l second_spare
        ++ choice_or_zero_code (is_some (opposite_in layout.now.allocation (term_tree condition.now))) target
        (working_register terms.allocation.count place first_spare)
        (register_of c first_spare) (register_of l second_spare)) }
{
    let second = layout.place_behind(place, 1);
    let is_opposite = opposite_in(layout, condition).is_some();
    let condition = fetched(layout, code, place, condition, FIRST_SPARE)?;
    let accepted = fetched(layout, code, second, accepted, SECOND_SPARE)?;
    let mask = layout.working_register(place, FIRST_SPARE);
    operators::choice_or_zero(code, is_opposite, target, mask, condition, accepted)
}

/// An expression into a place, and the register of what is there, which is fetched where it lies in a slot.
#[cycle(expressions)]
fn evaluated(
    layout: &Layout<'_>,
    code: &mut Vec<Instr>,
    place: u32,
    term: &Term,
) -> Result<Reg, AllocError>
    requires among { IsAmong (length layout.now.declared) (term_tree term.now) }
    requires room { temporaries_offset layout.now
        + 4 * slots_to layout.now.allocation.count (height_of (term_tree term.now) + place) ≤ 65536 }
    ensures code { let terms = term_layout layout.now in
        OnOk result (code.new.items ≡ code.old.items
        ++ expr_code terms place (term_tree term.now)
        ++ fetch_code (operand terms place (term_tree term.now)) first_spare) }
    ensures register { IfOk result (λ r.
        r ≡ register_of (operand (term_layout layout.now) place (term_tree term.now)) first_spare) }
{
    expression(layout, code, place, term)?;
    fetched(layout, code, place, term, FIRST_SPARE)
}

/// An expression into a register, with its operands in the places from this one on. No operand is fetched before the
/// code of all of them is through. Another operator, where one is given, stands for the expression's own.
#[cycle(expressions)]
fn into_by(
    layout: &Layout<'_>,
    code: &mut Vec<Instr>,
    other: Option<BinaryOperator>,
    target: Reg,
    place: u32,
    term: &Term,
) -> Result<(), AllocError>
    requires among { IsAmong (length layout.now.declared) (term_tree term.now) }
    requires room { temporaries_offset layout.now
        + 4 * slots_to layout.now.allocation.count (height_of (term_tree term.now) + place) ≤ 65536 }
    ensures { OnOk result (code.new.items ≡ code.old.items
        ++ into_by (term_layout layout.now) other target place (term_tree term.now)) }
{
    match term {
        Term::Number(value, _) => emit::constant(code, target, *value),
        Term::Truth(value) => emit::constant(code, target, u32::from(*value)),
        Term::Variable(number) => copy(code, target, &layout.variable_location(*number)),
        Term::Prefix(operator, width, operand) => {
            prefixed(layout, code, target, place, *operator, *width, operand)
        }
        Term::Binary(_, own, width, left, right) => {
            let operator = other.unwrap_or(*own);
            if let Some(offset) = joined_word(layout, operator, *width, left, right) {
                return emit::load(code, target, offset);
            }
            if let Some(row) = right_row(layout, operator, right) {
                let register = evaluated(layout, code, place, left)?;
                return operators::with_number(code, target, register, *width, row);
            }
            if let Some(row) = left_row(layout, operator, left) {
                let register = evaluated(layout, code, place, right)?;
                return operators::with_number(code, target, register, *width, row);
            }
            let next = layout.place_behind(place, 1);
            expression(layout, code, place, left)?;
            expression(layout, code, next, right)?;
            let registers = fetched_operands(layout, code, target, place, left, right)?;
            operators::operator(code, &registers, emitted(layout, operator), *width)
        }
        Term::Rotate(width, operand, amount) => {
            let register = evaluated(layout, code, place, operand)?;
            operators::rotate(code, target, register, *width, *amount)
        }
        Term::Convert(kind, operand) => {
            if layout.keeps_words(*kind) {
                return into_by(layout, code, None, target, place, operand);
            }
            let register = evaluated(layout, code, place, operand)?;
            operators::convert(code, target, register, *kind)
        }
        Term::Select(condition, accepted, otherwise) => {
            let second = layout.place_behind(place, 1);
            let third = layout.place_behind(place, 2);
            let opposite = opposite_in(layout, condition);
            placed_by(layout, code, opposite, place, condition)?;
            expression(layout, code, second, accepted)?;
            if chooses_zero(layout, otherwise) {
                return fetched_or_zero(layout, code, target, place, condition, accepted);
            }
            expression(layout, code, third, otherwise)?;
            let registers = fetched_choice(layout, code, place, condition, accepted, otherwise)?;
            operators::choice(code, target, &registers)
        }
        Term::Element(_, array, _, index) => {
            if let Some(place) = layout.near_place(*array, index) {
                return emit::near(code, target, layout.kind(*array), place);
            }
            reached(layout, code, target, place, *array, index)
        }
    }
}

/// An operator before an operand, into a register. Of 0 less the top bit of a word only the word is computed.
#[cycle(expressions)]
fn prefixed(
    layout: &Layout<'_>,
    code: &mut Vec<Instr>,
    target: Reg,
    place: u32,
    operator: PrefixOperator,
    width: Width,
    operand: &Term,
) -> Result<(), AllocError>
    requires among { IsAmong (length layout.now.declared) (term_tree operand.now) }
    requires room { temporaries_offset layout.now
        + 4 * slots_to layout.now.allocation.count (height_of (term_tree operand.now) + place) ≤ 65536 }
    ensures { let terms = term_layout layout.now in
        OnOk result (code.new.items ≡ code.old.items
        ++ prefixed_code terms target place operator width (term_tree operand.now)
        (into_by terms None (own_register terms place) place (term_tree operand.now))) }
{
    if let Term::Binary(_, own, _, left, right) = operand {
        if is_sign(layout, operator, width, *own, right) {
            let register = evaluated(layout, code, place, left)?;
            return operators::sign(code, target, register);
        }
    }
    let register = evaluated(layout, code, place, operand)?;
    operators::prefix(code, layout.immediates(), target, register, operator, width)
}

/// The element of an array at an index that is not near, into a register. Of a sum with a number that the access holds
/// only the left operand is computed.
#[cycle(expressions)]
fn reached(
    layout: &Layout<'_>,
    code: &mut Vec<Instr>,
    target: Reg,
    place: u32,
    array: u32,
    index: &Term,
) -> Result<(), AllocError>
    requires array { array < length layout.now.declared }
    requires among { IsAmong (length layout.now.declared) (term_tree index.now) }
    requires room { temporaries_offset layout.now
        + 4 * slots_to layout.now.allocation.count (height_of (term_tree index.now) + place) ≤ 65536 }
    ensures { let terms = term_layout layout.now in
        OnOk result (code.new.items ≡ code.old.items
        ++ reached_code terms target place array (term_tree index.now)
        (into_by terms None (own_register terms place) place (term_tree index.now))) }
{
    if let Term::Binary(_, operator, _, left, right) = index {
        if let Some(offset) = layout.sum_offset(array, *operator, right) {
            return indexed(layout, code, target, place, array, left, offset);
        }
    }
    indexed(
        layout,
        code,
        target,
        place,
        array,
        index,
        layout.variable(array),
    )
}

/// The element at an index, of an array as if at an offset, into a register.
#[cycle(expressions)]
fn indexed(
    layout: &Layout<'_>,
    code: &mut Vec<Instr>,
    target: Reg,
    place: u32,
    array: u32,
    index: &Term,
    offset: u32,
) -> Result<(), AllocError>
    requires array { array < length layout.now.declared }
    requires among { IsAmong (length layout.now.declared) (term_tree index.now) }
    requires room { temporaries_offset layout.now
        + 4 * slots_to layout.now.allocation.count (height_of (term_tree index.now) + place) ≤ 65536 }
    ensures { let terms = term_layout layout.now in
        OnOk result (code.new.items ≡ code.old.items
        ++ indexed_code terms target place array (term_tree index.now)
        (into_by terms None (own_register terms place) place (term_tree index.now)) offset) }
{
    let register = evaluated(layout, code, place, index)?;
    emit::element(code, target, register, layout.kind(array), offset)
}

/// An expression into a place, where temporaries live in all lower ones, with another operator for its own where one is
/// given. What has a home needs no code.
#[cycle(expressions)]
fn placed_by(
    layout: &Layout<'_>,
    code: &mut Vec<Instr>,
    other: Option<BinaryOperator>,
    place: u32,
    term: &Term,
) -> Result<(), AllocError>
    requires among { IsAmong (length layout.now.declared) (term_tree term.now) }
    requires room { temporaries_offset layout.now
        + 4 * slots_to layout.now.allocation.count (height_of (term_tree term.now) + place) ≤ 65536 }
    ensures { let terms = term_layout layout.now in
        OnOk result (code.new.items ≡ code.old.items
        ++ placed_code terms place (term_tree term.now)
        (into_by terms other (own_register terms place) place (term_tree term.now))) }
{
    if layout.is_at_home(term) {
        return Ok(());
    }
    let register = layout.working_register(place, FIRST_SPARE);
    into_by(layout, code, other, register, place, term)?;
    keep(code, &layout.temporary(place))
}

/// An expression into a place.
#[cycle(expressions)]
pub fn expression(
    layout: &Layout<'_>,
    code: &mut Vec<Instr>,
    place: u32,
    term: &Term,
) -> Result<(), AllocError>
    requires among { IsAmong (length layout.now.declared) (term_tree term.now) }
    requires room { temporaries_offset layout.now
        + 4 * slots_to layout.now.allocation.count (height_of (term_tree term.now) + place) ≤ 65536 }
    ensures { OnOk result (code.new.items ≡ code.old.items
        ++ expr_code (term_layout layout.now) place (term_tree term.now)) }
{
    placed_by(layout, code, None, place, term)
}

/// An expression into a register.
pub fn into(
    layout: &Layout<'_>,
    code: &mut Vec<Instr>,
    target: Reg,
    place: u32,
    term: &Term,
) -> Result<(), AllocError>
    requires among { IsAmong (length layout.now.declared) (term_tree term.now) }
    requires room { temporaries_offset layout.now
        + 4 * slots_to layout.now.allocation.count (height_of (term_tree term.now) + place) ≤ 65536 }
    ensures { OnOk result (code.new.items ≡ code.old.items
        ++ into_code (term_layout layout.now) target place (term_tree term.now)) }
{
    into_by(layout, code, None, target, place, term)
}
