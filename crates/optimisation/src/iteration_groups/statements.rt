// Statements in which four iterations of a loop are one.

ghost use Rattle.std.specs.Prelude.{◌≡◌, IfOk, OnOk, Some};
ghost use Rattle.branch_removal.specs.Straight as straight;
ghost use Rattle.optimisation.specs.Below.{chain, number, straight_block, straight_tree, term_tree, Uint32, W32};
ghost use Rattle.optimisation.specs.Below as below;
ghost use Rattle.word.specs.Places.{origin};
ghost use Rattle.optimisation.specs.iteration_groups.private.Grouping.{copies, first_of_group, group_code, grouped};
ghost use Rattle.optimisation.specs.iteration_groups.private.Grouping.{grouped_all, grouped_loop, number_set, shift_to};

use crate::constants::terms::CounterRange;
use crate::iteration_groups::choice::grouped_range;
use crate::iteration_groups::terms::{Shift, variable_at};
use branch_removal::{StraightStatement, branch_of, loop_of};
use inline::Term;
use language::{BinaryOperator, Kind};
use std::alloc::{AllocError, Global};
use straight_words::element_words::SplitArrays;
use straight_words::element_words::statements::push;
use straight_words::rewriting::Rewriting;
use straight_words::rewriting::statements::rewritten_statement;
use straight_words::rewriting::terms::rewritten;
use word::{Place, Width};

/// How many iterations are one.
const GROUP: u32 = 4;

/// How many bits a group's number is moved up by to be four times as much.
const GROUP_BITS: u32 = 2;

/// The counter of a loop, the base of its groups, and the counter's numbers.
#[derive(Clone, Copy)]
struct GroupedLoop {
    counter: u32,
    base: u32,
    range: CounterRange,
}

/// How statements are copied: the base of groups, and where they stand in one.
#[derive(Clone, Copy)]
pub struct Copying {
    pub alloc: Global,
    pub base: u32,
    pub shift: Option<Shift>,
}

/// The counter of a group, with its number in its place; in no group nothing is changed.
impl Rewriting for Copying {
    ghost use Rattle.optimisation.specs.iteration_groups.private.Grouping.{counter_instead};

    ghost rule = { λ copying. counter_instead copying.shift };

    fn instead(&self, alloc: Global, term: &Term) -> Result<Option<Term>, AllocError> {
        match term {
            Term::Variable(variable) => Ok(Some(variable_at(alloc, self.shift, *variable)?)),
            Term::Number(_, _)
            | Term::Truth(_)
            | Term::Prefix(_, _, _)
            | Term::Binary(_, _, _, _, _)
            | Term::Rotate(_, _, _)
            | Term::Convert(_, _)
            | Term::Select(_, _, _)
            | Term::Element(_, _, _, _) => Ok(None),
        }
    }
}

/// A word is set to a number.
fn number_set(variable: u32, value: u32) -> StraightStatement
    ensures { straight_tree result ≡ number_set variable value }
{
    StraightStatement::Set(None, variable, Term::Number(value, Kind::Uint32))
}

/// An operand, and a number with an operator before it.
fn binary(
    alloc: Global,
    operator: BinaryOperator,
    left: Term,
    right: u32,
) -> Result<Term, AllocError>
    ensures { IfOk result (λ made. term_tree made
        ≡ below.binary origin operator W32 (term_tree left) (number right Uint32)) }
{
    let left = Box::new(alloc, left)?;
    let right = Box::new(alloc, Term::Number(right, Kind::Uint32))?;
    Ok(Term::Binary(Place::ORIGIN, operator, Width::W32, left, right))
}

/// The number of the first iteration of a group.
fn first_of_group(alloc: Global, counter: u32, low: u32) -> Result<Term, AllocError>
    ensures { IfOk result (λ made. term_tree made ≡ first_of_group counter low) }
{
    let group = Term::Variable(counter);
    let moved = binary(alloc, BinaryOperator::ShiftLeft, group, GROUP_BITS)?;
    binary(alloc, BinaryOperator::Add, moved, low)
}

/// Puts a statement behind others.
#[cycle(grouping)]
fn statement(
    copying: Copying,
    code: &mut Vec<StraightStatement>,
    statement: &StraightStatement,
) -> Result<(), AllocError>
    ensures { OnOk result (straight_block code.new.items ≡ chain (straight_block code.old.items)
        (grouped copying.shift copying.base (straight_tree statement.now))) }
{
    let alloc = copying.alloc;
    match statement {
        StraightStatement::Set(_, _, _)
        | StraightStatement::Array(_, _, _)
        | StraightStatement::Put(_, _, _, _, _, _)
        | StraightStatement::Take(_, _, _) => {
            let made = rewritten_statement(alloc, &copying, statement)?;
            push(code, made)
        }
        StraightStatement::Branch(condition, accepted, otherwise) => {
            let condition = rewritten(alloc, &copying, condition)?;
            let one = block(copying, accepted)?;
            let other = block(copying, otherwise)?;
            push(code, branch_of(condition, one, other))
        }
        StraightStatement::Repeat(counter, low, high, body) => {
            push_loop(copying, code, *counter, low, high, body)
        }
    }
}

/// Puts a loop behind others, over groups where it is grouped.
#[cycle(grouping)]
fn push_loop(
    copying: Copying,
    code: &mut Vec<StraightStatement>,
    counter: u32,
    low: &Term,
    high: &Term,
    body: &[StraightStatement],
) -> Result<(), AllocError>
    ensures { OnOk result (straight_block code.new.items ≡ chain (straight_block code.old.items)
        (grouped copying.shift copying.base
        (straight.repeats counter (term_tree low.now) (term_tree high.now) (straight_block body.now)))) }
{
    let Copying { alloc, base, shift } = copying;
    if shift.is_none() {
        let none = SplitArrays::none(alloc);
        if let Some(range) = grouped_range(&none, counter, low, high, body) {
            let each = GroupedLoop {
                counter,
                base,
                range,
            };
            return push_groups(alloc, code, each, body);
        }
    }
    let low = rewritten(alloc, &copying, low)?;
    let high = rewritten(alloc, &copying, high)?;
    let iteration = block(copying, body)?;
    push(code, loop_of(counter, low, high, iteration))
}

/// Puts a loop over groups behind others, with the iterations that are left, and its counter at the last number.
#[cycle(grouping)]
fn push_groups(
    alloc: Global,
    code: &mut Vec<StraightStatement>,
    each: GroupedLoop,
    body: &[StraightStatement],
) -> Result<(), AllocError>
    ensures { OnOk result (straight_block code.new.items ≡ chain (straight_block code.old.items)
        (grouped_loop each.counter each.base each.range
        (λ offset. grouped_all (Some (shift_to each.counter each.base offset)) each.base (straight_block body.now)))) }
{
    let CounterRange { low, high } = each.range;
    let iterations = high.saturating_sub(low);
    let left = iterations % GROUP;
    let group = group_code(alloc, each, body)?;
    let none = Term::Number(0, Kind::Uint32);
    let groups = Term::Number(iterations / GROUP, Kind::Uint32);
    push(code, loop_of(each.counter, none, groups, group))?;
    push(code, number_set(each.base, high.saturating_sub(left)))?;
    push_copies(alloc, code, each, left, body)?;
    push(code, number_set(each.counter, high.saturating_sub(1)))
}

/// An iteration of a loop over groups.
#[cycle(grouping)]
fn group_code(
    alloc: Global,
    each: GroupedLoop,
    body: &[StraightStatement],
) -> Result<Vec<StraightStatement>, AllocError>
    ensures { IfOk result (λ code. straight_block code.items ≡ group_code each.counter each.base each.range.low
        (λ offset. grouped_all (Some (shift_to each.counter each.base offset)) each.base (straight_block body.now))) }
{
    let mut code = Vec::new(alloc);
    let base = first_of_group(alloc, each.counter, each.range.low)?;
    push(&mut code, StraightStatement::Set(None, each.base, base))?;
    push_copies(alloc, &mut code, each, GROUP, body)?;
    Ok(code)
}

/// Puts so many copies of a body behind others, one for each iteration of a group.
#[cycle(grouping)]
fn push_copies(
    alloc: Global,
    code: &mut Vec<StraightStatement>,
    each: GroupedLoop,
    count: u32,
    body: &[StraightStatement],
) -> Result<(), AllocError>
    ensures { OnOk result (straight_block code.new.items ≡ chain (straight_block code.old.items) (copies
        (λ offset. grouped_all (Some (shift_to each.counter each.base offset)) each.base (straight_block body.now))
        count 0)) }
{
    for offset in 0..count {
        let shift = Shift {
            counter: each.counter,
            base: each.base,
            offset,
        };
        let copying = Copying {
            alloc,
            base: each.base,
            shift: Some(shift),
        };
        push_all(copying, code, body)?;
    }
    Ok(())
}

/// Puts statements behind others, one after the other.
#[cycle(grouping)]
pub fn push_all(
    copying: Copying,
    code: &mut Vec<StraightStatement>,
    body: &[StraightStatement],
) -> Result<(), AllocError>
    ensures { OnOk result (straight_block code.new.items ≡ chain (straight_block code.old.items)
        (grouped_all copying.shift copying.base (straight_block body.now))) }
{
    for each in body {
        statement(copying, code, each)?;
    }
    Ok(())
}

/// Statements, one after the other.
#[cycle(grouping)]
fn block(copying: Copying, body: &[StraightStatement]) -> Result<Vec<StraightStatement>, AllocError>
    ensures { IfOk result (λ code. straight_block code.items
        ≡ grouped_all copying.shift copying.base (straight_block body.now)) }
{
    let mut code = Vec::new(copying.alloc);
    push_all(copying, &mut code, body)?;
    Ok(code)
}
