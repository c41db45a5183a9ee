// What a public condition tells in its arms of variables that keep their values.

ghost use Rattle.std.specs.Prelude.{◌≡◌, ◌++◌, OnOk};
ghost use Rattle.std.specs.Option.{option_to_list};
ghost use Rattle.intervals.specs.Below.{term_tree};
ghost use Rattle.intervals.specs.Narrowing.{is_both, met_all, named, said_where_false, said_where_true, says};
ghost use Rattle.intervals.specs.Narrowing.{told_false, told_true, told_where_false, told_where_true, where_false};
ghost use Rattle.intervals.specs.Narrowing.{where_true};
ghost use Rattle.intervals.specs.Undoing.{CameFrom};

use crate::Interval;
use crate::known::KnownBounds;
use crate::said::SaidOfVariable;
use crate::terms::{full_at, interval};
use inline::{FlatVariable, Term};
use language::{BinaryOperator, Label};
use std::alloc::AllocError;

/// That a variable lies from one number to another.
fn says(variable: u32, low: u32, high: u32) -> Option<SaidOfVariable>
    ensures { result ≡ says variable low high }
{
    let interval = Interval { low, high };
    Some(SaidOfVariable { variable, interval })
}

/// What a comparison of a variable with a number of this interval tells where it is true.
fn said_where_true(operator: BinaryOperator, variable: u32, e: Interval) -> Option<SaidOfVariable>
    ensures { result ≡ said_where_true operator variable e }
{
    match operator {
        BinaryOperator::Less => {
            let high = e.high.checked_sub(1)?;
            says(variable, 0, high)
        }
        BinaryOperator::LessOrEqual => says(variable, 0, e.high),
        BinaryOperator::Equal => says(variable, e.low, e.high),
        _ => None,
    }
}

/// And where it is false; the greatest number that the variable may be is given.
fn said_where_false(
    operator: BinaryOperator,
    variable: u32,
    greatest: u32,
    e: Interval,
) -> Option<SaidOfVariable>
    ensures { result ≡ said_where_false operator variable greatest e }
{
    match operator {
        BinaryOperator::Less => says(variable, e.low, greatest),
        BinaryOperator::LessOrEqual => {
            if e.low < greatest {
                says(variable, e.low + 1, greatest)
            } else {
                None
            }
        }
        _ => None,
    }
}

/// The variable that an expression is.
fn named(term: &Term) -> Option<u32>
    ensures { result ≡ named (term_tree term.now) }
{
    match term {
        Term::Variable(x) => Some(*x),
        _ => None,
    }
}

/// Whether an operator is `&&`.
fn is_both(operator: BinaryOperator) -> bool
    ensures { result ≡ is_both operator }
{
    matches!(operator, BinaryOperator::LogicalAnd)
}

/// What a comparison with a number of this interval tells where it is true, if its left operand is a variable.
fn told_where_true(
    operator: BinaryOperator,
    left: Option<u32>,
    e: Interval,
) -> Option<SaidOfVariable>
    ensures { result ≡ told_where_true operator left e }
{
    said_where_true(operator, left?, e)
}

/// And where it is false.
fn told_where_false(
    declared: &[FlatVariable],
    operator: BinaryOperator,
    left: Option<u32>,
    e: Interval,
) -> Option<SaidOfVariable>
    ensures { result ≡ told_where_false declared.now operator left e }
{
    let variable = left?;
    said_where_false(operator, variable, full_at(declared, variable).high, e)
}

/// Gathers what a condition tells where it is true: it is taken apart at `&&`, from left to right.
fn gather_true(
    declared: &[FlatVariable],
    bounds: &[Option<Interval>],
    condition: &Term,
    told: &mut Vec<SaidOfVariable>,
) -> Result<(), AllocError>
    ensures { OnOk result (told.new.items
        ≡ told.old.items ++ told_true declared.now bounds.now (term_tree condition.now)) }
{
    let Term::Binary(_, operator, _, left, right) = condition else {
        return Ok(());
    };
    if is_both(*operator) {
        gather_true(declared, bounds, left, told)?;
        return gather_true(declared, bounds, right, told);
    }
    let number = interval(declared, bounds, right);
    if let Some(said) = told_where_true(*operator, named(left), number) {
        told.push(said)?;
    }
    Ok(())
}

/// What a condition tells where it is false: only as a whole.
fn told_false(
    declared: &[FlatVariable],
    bounds: &[Option<Interval>],
    condition: &Term,
) -> Option<SaidOfVariable>
    ensures { result ≡ told_false declared.now bounds.now (term_tree condition.now) }
{
    let Term::Binary(_, operator, _, left, right) = condition else {
        return None;
    };
    let number = interval(declared, bounds, right);
    told_where_false(declared, *operator, named(left), number)
}

/// Learns what a public condition tells where it is true. A secret one tells nothing.
pub fn learn_true(
    declared: &[FlatVariable],
    known: &mut KnownBounds,
    label: Label,
    condition: &Term,
) -> Result<(), AllocError>
    ensures bounds { OnOk result (known.new.bounds.items
        ≡ where_true declared.now known.old.bounds.items label (term_tree condition.now)) }
    ensures from { OnOk result (CameFrom known.old known.new) }
{
    match label {
        Label::Secret => Ok(()),
        Label::Public => {
            let mut told = Vec::new(known.alloc);
            gather_true(declared, known.bounds.as_slice(), condition, &mut told)?;
            known.meet_all(told.as_slice())
        }
    }
}

/// And where it is false.
pub fn learn_false(
    declared: &[FlatVariable],
    known: &mut KnownBounds,
    label: Label,
    condition: &Term,
) -> Result<(), AllocError>
    ensures bounds { OnOk result (known.new.bounds.items
        ≡ where_false declared.now known.old.bounds.items label (term_tree condition.now)) }
    ensures from { OnOk result (CameFrom known.old known.new) }
{
    match label {
        Label::Secret => Ok(()),
        Label::Public => match told_false(declared, known.bounds.as_slice(), condition) {
            Some(said) => known.meet(said),
            None => Ok(()),
        },
    }
}
