// Work: how many nodes a run evaluates at most. A count stops at the greatest number.

ghost use Rattle.std.specs.Prelude.{◌≡◌, ◌+◌, ◌*◌, map, slice_index};
ghost use Rattle.std.specs.Option.{option_map};
ghost use Rattle.intervals.specs.Below.{counted, flat_block, flat_tree, term_nodes, term_tree, terms_nodes};
ghost use Rattle.intervals.specs.Below.{value_nodes};
ghost use Rattle.intervals.specs.Work.{body_work, tree_work};

use inline::{Flat, FlatStatement, Term};

/// How many nodes an expression has.
fn nodes_in(term: &Term) -> u64
    ensures { result ≡ counted (term_nodes (term_tree term.now)) }
{
    match term {
        Term::Number(_, _) => 1,
        Term::Truth(_) => 1,
        Term::Variable(_) => 1,
        Term::Prefix(_, _, operand) => nodes_in(operand).saturating_add(1),
        Term::Binary(_, _, _, left, right) => nodes_in(left)
            .saturating_add(nodes_in(right))
            .saturating_add(1),
        Term::Rotate(_, operand, _) => nodes_in(operand).saturating_add(1),
        Term::Convert(_, operand) => nodes_in(operand).saturating_add(1),
        Term::Select(condition, accepted, otherwise) => nodes_in(condition)
            .saturating_add(nodes_in(accepted))
            .saturating_add(nodes_in(otherwise))
            .saturating_add(1),
        Term::Element(_, _, _, index) => nodes_in(index).saturating_add(1),
    }
}

/// How many nodes expressions have.
fn nodes_in_all(terms: &[Term]) -> u64
    ensures { result ≡ counted (terms_nodes (map term_tree terms.now)) }
{
    let mut sum = 0u64;
    for term in terms {
        sum = sum.saturating_add(nodes_in(term));
    }
    sum
}

/// How many iterations are counted for a counter.
fn iterations_at(iterations: &[u32], counter: u32) -> u32
    ensures { result ≡ slice_index iterations.now counter }
{
    iterations.get(counter as usize).copied().unwrap_or(0)
}

/// The work of a statement. The iterations are counted at their counters' numbers.
#[cycle(work)]
fn work_of(iterations: &[u32], statement: &FlatStatement) -> u64
    ensures { result ≡ counted (tree_work iterations.now (flat_tree statement.now)) }
{
    match statement {
        FlatStatement::Declare(_, _, _, value) => nodes_in(value).saturating_add(1),
        FlatStatement::DeclareArray(_, _, _, size, values) => nodes_in_all(values.as_slice())
            .saturating_add(u64::from(*size))
            .saturating_add(1),
        FlatStatement::Assign(_, value) => nodes_in(value).saturating_add(1),
        FlatStatement::AssignElement(_, _, _, index, value) => nodes_in(index)
            .saturating_add(nodes_in(value))
            .saturating_add(2),
        FlatStatement::Hold(_, _, _, index) => nodes_in(index).saturating_add(1),
        FlatStatement::Skip => 1,
        FlatStatement::Branch(_, condition, accepted, otherwise) => nodes_in(condition)
            .saturating_add(work_of_all(iterations, accepted.as_slice()))
            .saturating_add(work_of_all(iterations, otherwise.as_slice()))
            .saturating_add(1),
        FlatStatement::Loop(counter, low, high, body) => nodes_in(low)
            .saturating_add(nodes_in(high))
            .saturating_add(work_of_iterations(iterations, *counter, body.as_slice())),
    }
}

/// The work of the iterations of a loop: one more than it makes at most.
#[cycle(work)]
fn work_of_iterations(iterations: &[u32], counter: u32, body: &[FlatStatement]) -> u64
    ensures { result ≡ counted
        ((slice_index iterations.now counter + 1) * (1 + body_work iterations.now (flat_block body.now))) }
{
    let times = u64::from(iterations_at(iterations, counter)) + 1;
    let iteration = work_of_all(iterations, body).saturating_add(1);
    times.saturating_mul(iteration)
}

/// The work of statements.
#[cycle(work)]
pub fn work_of_all(iterations: &[u32], body: &[FlatStatement]) -> u64
    ensures { result ≡ counted (body_work iterations.now (flat_block body.now)) }
{
    let mut sum = 0u64;
    for statement in body {
        sum = sum.saturating_add(work_of(iterations, statement));
    }
    sum
}

/// The work of a result, where there is one.
pub fn work_of_value(value: Option<&Term>) -> u64
    ensures { result ≡ counted (value_nodes (option_map (λ term. term_tree term.now) value.entry)) }
{
    match value {
        Some(value) => nodes_in(value).saturating_add(1),
        None => 0,
    }
}

/// The work of a program for which these iterations are counted.
pub fn program_work(iterations: &[u32], flat: &Flat) -> u64
    ensures { result ≡ counted (body_work iterations.now flat.now.body + value_nodes flat.now.value) }
{
    work_of_all(iterations, flat.body()).saturating_add(work_of_value(flat.value()))
}
