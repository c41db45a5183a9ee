// Which loops become their iterations.

ghost use Rattle.std.specs.Prelude.{◌≡◌, slice_index, slice_set, IfOk};
ghost use Rattle.optimisation.specs.Below.{straight_block, straight_tree};
ghost use Rattle.optimisation.specs.constants.private.Choice.{begun, choice_of, chosen, chosen_all, grown};
ghost use Rattle.optimisation.specs.constants.private.Choice.{instead, is_kept, is_worth, most_nodes_of, opened};
ghost use Rattle.optimisation.specs.constants.private.Choice.{settled, totals_of};

use crate::constants::costs::{ITERATION_COST, cost_by_all};
use crate::iteration_groups::choice::{LEAST_ITERATIONS, is_groupable};
use crate::nodes::{INDEX_NODES, nodes_in, nodes_in_all};
use branch_removal::{StraightCode, StraightStatement};
use std::alloc::{AllocError, Global};
use straight_words::element_words::SplitArrays;

/// How many nodes the iterations of loops have room for, for each node of the source.
const ROOM_FACTOR: u64 = 32;

/// The most room that there is, however large the source is.
const MOST_ROOM: u64 = 48_000;

/// How many nodes an iteration may have.
const MOST_IN_ITERATION: u64 = 384;

/// So few iterations take little room even where they are long.
const FEW_ITERATIONS: u32 = 3;

/// How many nodes each of few iterations may have.
const MOST_IN_EACH_OF_FEW: u64 = 4_096;

/// How many nodes all iterations of a loop have that is better off without a counter, though it may be grouped.
const SHORT_LOOP: u64 = 128;

/// How many nodes there are in setting a counter.
const COUNTER_NODES: u64 = 2;

/// How many times as great as what is saved, each as its share of all, what is added may be.
const PRICE: u64 = 10;

/// How many iterations the loop of a counter may become.
pub fn unroll_limit_of(unroll_limits: &[u32], counter: u32) -> u32
    ensures { result ≡ slice_index unroll_limits.now counter }
{
    unroll_limits.get(counter as usize).copied().unwrap_or(0)
}

/// How many nodes an iteration may have, by how many iterations there are.
fn most_nodes_of(iterations: u32) -> u64
    ensures { result ≡ most_nodes_of iterations }
{
    if iterations <= FEW_ITERATIONS {
        MOST_IN_EACH_OF_FEW
    } else {
        MOST_IN_ITERATION
    }
}

/// Whether a loop that may be grouped stays: where it makes many iterations, and these would not be short together.
fn is_kept(groupable: bool, iterations: u32, cost: u64) -> bool
    ensures { result ≡ is_kept groupable iterations cost }
{
    groupable && LEAST_ITERATIONS <= iterations && SHORT_LOOP < cost
}

/// The loop of a counter may not become iterations.
fn refuse(unroll_limits: &mut Vec<u32>, counter: u32)
    ensures { unroll_limits.new.items ≡ slice_set unroll_limits.old.items counter 0 }
{
    if let Some(iterations) = unroll_limits.get_mut(counter as usize) {
        *iterations = 0;
    }
}

/// About how many words of code the whole program is as it stands, and how many steps it takes.
#[derive(Clone, Copy)]
struct Totals {
    words: u64,
    steps: u64,
}

/// What a program is as it stands.
fn totals_of(arrays: &SplitArrays, iterations: &[u32], body: &[StraightStatement]) -> Totals
    ensures { result ≡ totals_of arrays.now.arrays.items iterations.now (straight_block body.now) }
{
    Totals {
        words: cost_by_all(arrays, &[], false, body),
        steps: cost_by_all(arrays, iterations, false, body),
    }
}

/// What the iterations of a loop are instead of it, each by what its body takes: how many words are added, and how many
/// steps are saved each time.
fn instead(iterations: u32, as_loop: u64, as_code: u64) -> Totals
    ensures { result ≡ instead iterations as_loop as_code }
{
    let iterations = u64::from(iterations);
    Totals {
        words: as_code.saturating_mul(iterations).saturating_sub(as_loop),
        steps: as_loop
            .saturating_add(ITERATION_COST)
            .saturating_sub(as_code)
            .saturating_mul(iterations),
    }
}

/// How many nodes there is still room for, how many there are so far, whether a loop is among them that stays to be
/// grouped, and how often all loops around them run them.
#[derive(Clone, Copy)]
struct Counts {
    room: u64,
    nodes: u64,
    keeps: bool,
    times: u64,
}

/// How many iterations the loop of each counter may become, at the counter's number; the counts of nodes; which arrays
/// might become words; and what the program was before.
#[derive(Drop)]
pub struct Choice {
    pub unroll_limits: Vec<u32>,
    arrays: SplitArrays,
    totals: Totals,
    counts: Counts,
}

impl Choice {
    /// The choice for a program.
    pub fn of(alloc: Global, straight: &StraightCode<'_>) -> Result<Self, AllocError>
        ensures { IfOk result (λ choice. choice_of choice ≡ chosen_all (begun straight.now) straight.now.body) }
    {
        let body = straight.body();
        let parameters = straight.parameters().len();
        let room = (u64::from(straight.nodes()) * ROOM_FACTOR).min(MOST_ROOM);
        let arrays = SplitArrays::candidates(alloc, parameters, straight.declared())?;
        let totals = totals_of(&arrays, straight.iterations(), body);
        let mut choice = Choice {
            unroll_limits: straight.iterations().to_vec(alloc)?,
            arrays,
            totals,
            counts: Counts {
                room,
                nodes: 0,
                keeps: false,
                times: 1,
            },
        };
        choice.choose_all(body);
        Ok(choice)
    }

    /// So many nodes more.
    fn grow(&mut self, nodes: u64)
        ensures { choice_of self.new ≡ grown (choice_of self.old) nodes }
    {
        self.counts.nodes = self.counts.nodes.saturating_add(nodes);
    }

    /// Whether a loop that is run so many times, for whose body all is chosen, is worth its iterations: where what they
    /// save has at least a tenth of the share of all steps that what they add has of all words.
    fn is_worth(&self, times: u64, counter: u32, body: &[StraightStatement]) -> bool
        ensures { result ≡ is_worth times counter (straight_block body.now) (choice_of self.now) }
    {
        let limits = self.unroll_limits.as_slice();
        let Totals { words, steps } = instead(
            unroll_limit_of(limits, counter),
            cost_by_all(&self.arrays, limits, false, body),
            cost_by_all(&self.arrays, limits, true, body),
        );
        let added = words.saturating_mul(self.totals.steps);
        let saved = steps
            .saturating_mul(times)
            .saturating_mul(self.totals.words);
        added <= saved.saturating_mul(PRICE)
    }

    /// Behind what was counted before, a loop of so many nodes without its body, for which all is chosen: it becomes
    /// its iterations where that is worth it, each is short, and there is room for all, but not where it, or a loop in
    /// it, stays to be grouped.
    fn settle(&mut self, before: Counts, counter: u32, own: u64, groupable: bool, worth: bool)
        ensures { choice_of self.new ≡ settled before counter own groupable worth (choice_of self.old) }
    {
        let iterations = unroll_limit_of(self.unroll_limits.as_slice(), counter);
        let Counts {
            room,
            nodes,
            keeps,
            ..
        } = self.counts;
        let cost = nodes
            .saturating_add(COUNTER_NODES)
            .saturating_mul(u64::from(iterations));
        let keeps = keeps || is_kept(groupable, iterations, cost);
        let unrolls = iterations >= 1 && worth && !keeps;
        if unrolls && nodes <= most_nodes_of(iterations) && cost <= before.room {
            self.counts = Counts {
                room: before.room - cost,
                nodes: before.nodes.saturating_add(cost),
                ..before
            };
        } else {
            refuse(&mut self.unroll_limits, counter);
            self.counts = Counts {
                room,
                nodes: before.nodes.saturating_add(own).saturating_add(nodes),
                keeps: before.keeps || keeps,
                times: before.times,
            };
        }
    }

    /// The body of the loop of a counter begins.
    fn open(&mut self, counter: u32)
        ensures { choice_of self.new ≡ opened counter (choice_of self.old) }
    {
        let iterations = unroll_limit_of(self.unroll_limits.as_slice(), counter);
        self.counts.nodes = 0;
        self.counts.keeps = false;
        self.counts.times = self.counts.times.saturating_mul(u64::from(iterations));
    }

    /// Chooses among the loops in a statement.
    #[cycle(choice)]
    fn choose(&mut self, statement: &StraightStatement)
        ensures { choice_of self.new ≡ chosen (choice_of self.old) (straight_tree statement.now) }
    {
        match statement {
            StraightStatement::Set(_, _, value) | StraightStatement::Take(_, _, value) => {
                self.grow(nodes_in(value).saturating_add(1));
            }
            StraightStatement::Array(_, _, values) => {
                self.grow(nodes_in_all(values).saturating_add(1));
            }
            StraightStatement::Put(_, _, _, _, index, value) => {
                let nodes = (nodes_in(index) / INDEX_NODES).saturating_add(nodes_in(value));
                self.grow(nodes.saturating_add(1));
            }
            StraightStatement::Branch(condition, accepted, otherwise) => {
                self.grow(nodes_in(condition).saturating_add(1));
                self.choose_all(accepted);
                self.choose_all(otherwise);
            }
            StraightStatement::Repeat(counter, low, high, body) => {
                let before = self.counts;
                self.open(*counter);
                self.choose_all(body);
                let own = nodes_in(low).saturating_add(nodes_in(high));
                let groupable = is_groupable(&self.arrays, *counter, body);
                let worth = self.is_worth(before.times, *counter, body);
                self.settle(before, *counter, own.saturating_add(1), groupable, worth);
            }
        }
    }

    /// Chooses among the loops in statements.
    #[cycle(choice)]
    fn choose_all(&mut self, body: &[StraightStatement])
        ensures { choice_of self.new ≡ chosen_all (choice_of self.old) (straight_block body.now) }
    {
        for statement in body {
            self.choose(statement);
        }
    }
}
