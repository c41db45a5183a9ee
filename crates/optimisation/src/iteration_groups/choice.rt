// Which loops are grouped: those between two numbers that make at least sixteen iterations, whose body is short, has no
// loop, sets the counter nowhere, and loses nothing in a group.

ghost use Rattle.std.specs.Prelude.{◌≡◌, map};
ghost use Rattle.optimisation.specs.Below.{straight_block, straight_tree, term_tree};
ghost use Rattle.optimisation.specs.iteration_groups.private.Choice.{are_plain, body_size, grouped_range};
ghost use Rattle.optimisation.specs.iteration_groups.private.Choice.{is_groupable, is_plain, is_short};
ghost use Rattle.optimisation.specs.iteration_groups.private.Choice.{number_in, range_between, statement_size};
ghost use Rattle.optimisation.specs.private.Nodes.{counted};

use crate::constants::terms::CounterRange;
use crate::iteration_groups::losses::lost_by_all;
use crate::nodes::{INDEX_NODES, nodes_in, nodes_in_all};
use branch_removal::StraightStatement;
use inline::Term;
use straight_words::element_words::SplitArrays;

/// How many iterations a loop makes at least that is grouped.
pub const LEAST_ITERATIONS: u32 = 16;

/// How many nodes an iteration may have.
const MOST_NODES: u64 = 24;

/// Whether a statement has no loop, and does not set a variable.
#[cycle(plain)]
fn is_plain(variable: u32, statement: &StraightStatement) -> bool
    ensures { result ≡ is_plain variable (straight_tree statement.now) }
{
    match statement {
        StraightStatement::Set(_, set, _)
        | StraightStatement::Array(set, _, _)
        | StraightStatement::Put(_, _, set, _, _, _) => *set != variable,
        StraightStatement::Take(_, _, _) => true,
        StraightStatement::Branch(_, accepted, otherwise) => {
            are_plain(variable, accepted) && are_plain(variable, otherwise)
        }
        StraightStatement::Repeat(_, _, _, _) => false,
    }
}

/// Whether none of the statements has a loop or sets a variable.
#[cycle(plain)]
fn are_plain(variable: u32, statements: &[StraightStatement]) -> bool
    ensures { result ≡ are_plain variable (straight_block statements.now) }
{
    for statement in statements {
        if !is_plain(variable, statement) {
            return false;
        }
    }
    true
}

/// How many nodes a statement has, of indices a quarter.
#[cycle(nodes)]
fn nodes_by(statement: &StraightStatement) -> u64
    ensures { result ≡ counted (statement_size (straight_tree statement.now)) }
{
    match statement {
        StraightStatement::Set(_, _, value) | StraightStatement::Take(_, _, value) => {
            nodes_in(value).saturating_add(1)
        }
        StraightStatement::Array(_, _, values) => nodes_in_all(values).saturating_add(1),
        StraightStatement::Put(_, _, _, _, index, value) => (nodes_in(index) / INDEX_NODES)
            .saturating_add(nodes_in(value))
            .saturating_add(1),
        StraightStatement::Branch(condition, accepted, otherwise) => nodes_in(condition)
            .saturating_add(nodes_by_all(accepted))
            .saturating_add(nodes_by_all(otherwise))
            .saturating_add(1),
        StraightStatement::Repeat(_, low, high, body) => nodes_in(low)
            .saturating_add(nodes_in(high))
            .saturating_add(nodes_by_all(body))
            .saturating_add(1),
    }
}

/// How many nodes statements have.
#[cycle(nodes)]
fn nodes_by_all(statements: &[StraightStatement]) -> u64
    ensures { result ≡ counted (body_size (straight_block statements.now)) }
{
    let mut sum = 0u64;
    for statement in statements {
        sum = sum.saturating_add(nodes_by(statement));
    }
    sum
}

/// Whether an iteration has few nodes, and loses nothing in a group.
fn is_short(arrays: &SplitArrays, counter: u32, body: &[StraightStatement]) -> bool
    ensures { result ≡ is_short arrays.now.arrays.items counter (straight_block body.now) }
{
    nodes_by_all(body) <= MOST_NODES && lost_by_all(arrays, counter, body) == 0
}

/// A number.
fn number_in(term: &Term) -> Option<u32>
    ensures { result ≡ number_in (term_tree term.now) }
{
    match term {
        Term::Number(value, _) => Some(*value),
        Term::Truth(_)
        | Term::Variable(_)
        | Term::Prefix(_, _, _)
        | Term::Binary(_, _, _, _, _)
        | Term::Rotate(_, _, _)
        | Term::Convert(_, _)
        | Term::Select(_, _, _)
        | Term::Element(_, _, _, _) => None,
    }
}

/// The numbers from one up to the last before another, where there are enough of them.
fn range_between(low: u32, high: u32) -> Option<CounterRange>
    ensures { result ≡ range_between low high }
{
    if LEAST_ITERATIONS <= high.saturating_sub(low) {
        Some(CounterRange { low, high })
    } else {
        None
    }
}

/// Whether a loop may be grouped, by its body.
pub fn is_groupable(arrays: &SplitArrays, counter: u32, body: &[StraightStatement]) -> bool
    ensures { result ≡ is_groupable arrays.now.arrays.items counter (straight_block body.now) }
{
    are_plain(counter, body) && is_short(arrays, counter, body)
}

/// The numbers of a counter, where its loop is grouped.
pub fn grouped_range(
    arrays: &SplitArrays,
    counter: u32,
    low: &Term,
    high: &Term,
    body: &[StraightStatement],
) -> Option<CounterRange>
    ensures { result ≡ grouped_range arrays.now.arrays.items counter (term_tree low.now) (term_tree high.now)
        (straight_block body.now) }
{
    if is_groupable(arrays, counter, body) {
        range_between(number_in(low)?, number_in(high)?)
    } else {
        None
    }
}
