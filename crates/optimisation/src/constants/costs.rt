// About how many instructions statements take: each operator, load and store is one, and words are in registers. Where
// counters are numbers an element takes no instructions for its address, and none at all where its array becomes words.

ghost use Rattle.std.specs.Prelude.{◌≡◌, map};
ghost use Rattle.optimisation.specs.Below.{straight_block, straight_tree, term_tree};
ghost use Rattle.optimisation.specs.constants.private.Costs.{access_cost, all_cost, cost, cost_at, cost_by};
ghost use Rattle.optimisation.specs.constants.private.Costs.{cost_by_all, loop_cost, stays_known};
ghost use Rattle.straight_words.specs.element_words.private.Parts.{part_of};
ghost use Rattle.optimisation.specs.private.Nodes.{counted};

use crate::constants::choice::unroll_limit_of;
use crate::iteration_groups::losses::is_near;
use branch_removal::StraightStatement;
use inline::Term;
use straight_words::element_words::SplitArrays;

/// What an access takes of an array that would be words if all its indices were numbers: far more than any other.
const SPLIT_COST: u64 = 1_024;

/// What the address of an element takes beside its index.
const ADDRESS_COST: u64 = 2;

/// What a rotation or a choice takes.
const LONG_COST: u64 = 3;

/// What an iteration takes beside its body.
pub const ITERATION_COST: u64 = 3;

/// What a load or store takes, where indices are numbers or not.
fn access_cost(arrays: &SplitArrays, known: bool, array: u32) -> u64
    ensures { result ≡ access_cost known (part_of arrays.now.arrays.items array) }
{
    match arrays.of(array) {
        Some(_) => { if known { 0 } else { SPLIT_COST } }
        None => 1,
    }
}

/// What an expression takes.
fn cost_in(arrays: &SplitArrays, known: bool, term: &Term) -> u64
    ensures { result ≡ counted (cost arrays.now.arrays.items known (term_tree term.now)) }
{
    match term {
        Term::Number(_, _) | Term::Truth(_) | Term::Variable(_) => 0,
        Term::Convert(_, operand) => cost_in(arrays, known, operand),
        Term::Prefix(_, _, operand) => cost_in(arrays, known, operand).saturating_add(1),
        Term::Rotate(_, operand, _) => cost_in(arrays, known, operand).saturating_add(LONG_COST),
        Term::Binary(_, _, _, left, right) => cost_in(arrays, known, left)
            .saturating_add(cost_in(arrays, known, right))
            .saturating_add(1),
        Term::Select(condition, accepted, otherwise) => cost_in(arrays, known, condition)
            .saturating_add(cost_in(arrays, known, accepted))
            .saturating_add(cost_in(arrays, known, otherwise))
            .saturating_add(LONG_COST),
        Term::Element(_, array, _, index) => {
            let own = access_cost(arrays, known, *array);
            if known || is_near(index) {
                own
            } else {
                cost_in(arrays, known, index)
                    .saturating_add(ADDRESS_COST)
                    .saturating_add(own)
            }
        }
    }
}

/// What a load or store takes with its index.
fn cost_at(arrays: &SplitArrays, known: bool, array: u32, index: &Term) -> u64
    ensures { result ≡ counted (cost_at arrays.now.arrays.items known array (term_tree index.now)) }
{
    let own = access_cost(arrays, known, array);
    if known || is_near(index) {
        own
    } else {
        cost_in(arrays, known, index)
            .saturating_add(ADDRESS_COST)
            .saturating_add(own)
    }
}

/// What expressions take.
fn cost_in_all(arrays: &SplitArrays, known: bool, terms: &[Term]) -> u64
    ensures { result ≡ counted (all_cost arrays.now.arrays.items known (map term_tree terms.now)) }
{
    let mut sum = 0u64;
    for term in terms {
        sum = sum.saturating_add(cost_in(arrays, known, term));
    }
    sum
}

/// What a loop takes of so many iterations, or once, where it makes none that count, by what its body does.
fn loop_cost(iterations: u32, body: u64) -> u64
    ensures { result ≡ loop_cost iterations body }
{
    body.saturating_add(ITERATION_COST)
        .saturating_mul(u64::from(iterations.max(1)))
}

/// Whether counters are numbers in a loop that becomes so many iterations: not where it stays.
fn stays_known(known: bool, iterations: u32) -> bool
    ensures { result ≡ stays_known known iterations }
{
    known && iterations >= 1
}

/// What a statement takes, where the loop of each counter makes so many iterations.
#[cycle(costs)]
fn cost_by(arrays: &SplitArrays, limits: &[u32], known: bool, statement: &StraightStatement) -> u64
    ensures { result ≡ counted (cost_by arrays.now.arrays.items limits.now known (straight_tree statement.now)) }
{
    match statement {
        StraightStatement::Set(_, _, value) => cost_in(arrays, known, value),
        StraightStatement::Take(_, _, value) => cost_in(arrays, known, value).saturating_add(1),
        StraightStatement::Array(_, _, values) => cost_in_all(arrays, known, values),
        StraightStatement::Put(_, _, array, _, index, value) => {
            cost_at(arrays, known, *array, index).saturating_add(cost_in(arrays, known, value))
        }
        StraightStatement::Branch(condition, accepted, otherwise) => {
            cost_in(arrays, known, condition)
                .saturating_add(cost_by_all(arrays, limits, known, accepted))
                .saturating_add(cost_by_all(arrays, limits, known, otherwise))
                .saturating_add(1)
        }
        StraightStatement::Repeat(counter, _, _, body) => {
            let iterations = unroll_limit_of(limits, *counter);
            let known = stays_known(known, iterations);
            loop_cost(iterations, cost_by_all(arrays, limits, known, body))
        }
    }
}

/// What statements take, one after the other.
#[cycle(costs)]
pub fn cost_by_all(
    arrays: &SplitArrays,
    limits: &[u32],
    known: bool,
    statements: &[StraightStatement],
) -> u64
    ensures { result ≡ counted (cost_by_all arrays.now.arrays.items limits.now known (straight_block statements.now)) }
{
    let mut sum = 0u64;
    for statement in statements {
        sum = sum.saturating_add(cost_by(arrays, limits, known, statement));
    }
    sum
}
