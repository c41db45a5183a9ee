// A walk over a body: what is known of its variables from statement to statement.

ghost use Rattle.std.specs.Prelude.{◌≡◌, fold, map, slice_set, OnOk};
ghost use Rattle.intervals.specs.Below.{flat_block, flat_tree, noted, term_tree};
ghost use Rattle.intervals.specs.Intervals.{with_bound};
ghost use Rattle.intervals.specs.Narrowing.{where_false, where_true};
ghost use Rattle.intervals.specs.Ranges.{bounds_after, bounds_after_all, counted, counted_all, counter_interval};
ghost use Rattle.intervals.specs.Ranges.{is_steady, most_iterations, violations, violations_all};
ghost use Rattle.intervals.specs.Undoing.{CameFrom};

use crate::Interval;
use crate::known::KnownBounds;
use crate::narrowing::{learn_false, learn_true};
use crate::terms::{note_index, note_term, note_terms};
use findings::Findings;
use inline::{FlatStatement, FlatVariable, Term};
use language::{Label, WordType};
use std::alloc::AllocError;

/// What a walk gathers.
#[derive(Drop)]
pub struct Walk {
    pub known: KnownBounds,
    /// The iterations of each loop, at its counter's number.
    pub iterations: Vec<u32>,
    pub findings: Findings,
}

/// Whether a variable keeps its value, and is public.
fn is_steady(word: WordType, mutable: bool) -> bool
    ensures { result ≡ is_steady word mutable }
{
    !(matches!(word.label, Label::Secret) || mutable)
}

/// How many iterations a loop makes at most, by the intervals of its bounds.
fn most_iterations(low: Interval, high: Interval) -> u32
    ensures { result ≡ most_iterations low high }
{
    high.high.saturating_sub(low.low)
}

/// What the counter of a loop is.
fn counter_interval(low: Interval, high: Interval) -> Interval
    ensures { result ≡ counter_interval low high }
{
    if low.low < high.high {
        Interval {
            low: low.low,
            high: high.high - 1,
        }
    } else {
        Interval {
            low: low.low,
            high: low.low,
        }
    }
}

/// Counts so many iterations for a counter.
fn count(iterations: &mut Vec<u32>, counter: u32, most: u32)
    ensures { iterations.new.items ≡ slice_set iterations.old.items counter most }
{
    if let Some(iterations) = iterations.get_mut(counter as usize) {
        *iterations = most;
    }
}

/// A statement: what is known after it, its iterations, and what it has out of range.
#[cycle(walk)]
fn statement(
    declared: &[FlatVariable],
    walk: &mut Walk,
    statement: &FlatStatement,
) -> Result<(), AllocError>
    ensures bounds { OnOk result (walk.new.known.bounds.items
        ≡ bounds_after declared.now walk.old.known.bounds.items (flat_tree statement.now)) }
    ensures from { OnOk result (CameFrom walk.old.known walk.new.known) }
    ensures iterations { OnOk result (walk.new.iterations.items
        ≡ counted declared.now walk.old.known.bounds.items walk.old.iterations.items (flat_tree statement.now)) }
    ensures findings { OnOk result (walk.new.findings
        ≡ fold noted walk.old.findings
        (violations declared.now walk.old.known.bounds.items (flat_tree statement.now))) }
{
    let bounds = walk.known.bounds.as_slice();
    match statement {
        FlatStatement::Declare(x, word, mutable, value) => {
            let value = note_term(&mut walk.findings, declared, bounds, value);
            if is_steady(*word, *mutable) {
                walk.known.set(*x, value)?;
            }
            Ok(())
        }
        FlatStatement::DeclareArray(_, _, _, _, values) => {
            note_terms(&mut walk.findings, declared, bounds, values.as_slice());
            Ok(())
        }
        FlatStatement::Assign(_, value) => {
            note_term(&mut walk.findings, declared, bounds, value);
            Ok(())
        }
        FlatStatement::AssignElement(place, _, size, index, value) => {
            let index = note_term(&mut walk.findings, declared, bounds, index);
            note_index(&mut walk.findings, *place, *size, index);
            note_term(&mut walk.findings, declared, bounds, value);
            Ok(())
        }
        FlatStatement::Hold(x, place, size, index) => {
            let held = note_term(&mut walk.findings, declared, bounds, index);
            note_index(&mut walk.findings, *place, *size, held);
            walk.known.set(*x, held)
        }
        FlatStatement::Skip => Ok(()),
        FlatStatement::Branch(label, condition, accepted, otherwise) => {
            note_term(&mut walk.findings, declared, bounds, condition);
            accepted_arm(declared, walk, accepted.as_slice(), *label, condition)?;
            otherwise_arm(declared, walk, otherwise.as_slice(), *label, condition)
        }
        FlatStatement::Loop(counter, low, high, body) => {
            let low = note_term(&mut walk.findings, declared, bounds, low);
            let high = note_term(&mut walk.findings, declared, bounds, high);
            count(&mut walk.iterations, *counter, most_iterations(low, high));
            let numbers = counter_interval(low, high);
            iterations(declared, walk, *counter, numbers, body.as_slice())
        }
    }
}

/// The arm in which a condition is true. What is known in it alone is taken back behind it.
#[cycle(walk)]
fn accepted_arm(
    declared: &[FlatVariable],
    walk: &mut Walk,
    arm: &[FlatStatement],
    label: Label,
    condition: &Term,
) -> Result<(), AllocError>
    ensures bounds { OnOk result (walk.new.known.bounds.items ≡ walk.old.known.bounds.items) }
    ensures changes { OnOk result (walk.new.known.changes.items ≡ walk.old.known.changes.items) }
    ensures iterations { OnOk result (walk.new.iterations.items
        ≡ counted_all declared.now
        (where_true declared.now walk.old.known.bounds.items label (term_tree condition.now)) walk.old.iterations.items
        (flat_block arm.now)) }
    ensures findings { OnOk result (walk.new.findings
        ≡ fold noted walk.old.findings (violations_all declared.now
        (where_true declared.now walk.old.known.bounds.items label (term_tree condition.now)) (flat_block arm.now))) }
{
    let outside = walk.known.mark();
    learn_true(declared, &mut walk.known, label, condition)?;
    statements(declared, walk, arm)?;
    walk.known.rewind(outside);
    Ok(())
}

/// The arm in which it is false.
#[cycle(walk)]
fn otherwise_arm(
    declared: &[FlatVariable],
    walk: &mut Walk,
    arm: &[FlatStatement],
    label: Label,
    condition: &Term,
) -> Result<(), AllocError>
    ensures bounds { OnOk result (walk.new.known.bounds.items ≡ walk.old.known.bounds.items) }
    ensures changes { OnOk result (walk.new.known.changes.items ≡ walk.old.known.changes.items) }
    ensures iterations { OnOk result (walk.new.iterations.items
        ≡ counted_all declared.now
        (where_false declared.now walk.old.known.bounds.items label (term_tree condition.now)) walk.old.iterations.items
        (flat_block arm.now)) }
    ensures findings { OnOk result (walk.new.findings
        ≡ fold noted walk.old.findings (violations_all declared.now
        (where_false declared.now walk.old.known.bounds.items label (term_tree condition.now)) (flat_block arm.now))) }
{
    let outside = walk.known.mark();
    learn_false(declared, &mut walk.known, label, condition)?;
    statements(declared, walk, arm)?;
    walk.known.rewind(outside);
    Ok(())
}

/// The iterations of a loop, whose counter is one of these numbers.
#[cycle(walk)]
fn iterations(
    declared: &[FlatVariable],
    walk: &mut Walk,
    counter: u32,
    numbers: Interval,
    body: &[FlatStatement],
) -> Result<(), AllocError>
    ensures bounds { OnOk result (walk.new.known.bounds.items ≡ walk.old.known.bounds.items) }
    ensures changes { OnOk result (walk.new.known.changes.items ≡ walk.old.known.changes.items) }
    ensures iterations { OnOk result (walk.new.iterations.items
        ≡ counted_all declared.now
        (with_bound walk.old.known.bounds.items counter numbers) walk.old.iterations.items (flat_block body.now)) }
    ensures findings { OnOk result (walk.new.findings
        ≡ fold noted walk.old.findings
        (violations_all declared.now (with_bound walk.old.known.bounds.items counter numbers) (flat_block body.now))) }
{
    let outside = walk.known.mark();
    walk.known.set(counter, numbers)?;
    statements(declared, walk, body)?;
    walk.known.rewind(outside);
    Ok(())
}

/// Statements in their order.
#[cycle(walk)]
pub fn statements(
    declared: &[FlatVariable],
    walk: &mut Walk,
    body: &[FlatStatement],
) -> Result<(), AllocError>
    ensures bounds { OnOk result (walk.new.known.bounds.items
        ≡ bounds_after_all declared.now walk.old.known.bounds.items (flat_block body.now)) }
    ensures from { OnOk result (CameFrom walk.old.known walk.new.known) }
    ensures iterations { OnOk result (walk.new.iterations.items
        ≡ counted_all declared.now walk.old.known.bounds.items walk.old.iterations.items (flat_block body.now)) }
    ensures findings { OnOk result (walk.new.findings
        ≡ fold noted walk.old.findings
        (violations_all declared.now walk.old.known.bounds.items (flat_block body.now))) }
{
    for one in body {
        statement(declared, walk, one)?;
    }
    Ok(())
}
