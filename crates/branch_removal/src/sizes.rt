// How large straight code is: what `StraightCode` asks of other statements before it takes them. A count stops at the
// greatest number of 64 bits, and one of work, which takes half of that, is exact below 63 bits.

ghost use Rattle.std.specs.Prelude.{◌≡◌, ◌+◌, ◌*◌, ◌^◌, ◌<◌, map, max};
ghost use Rattle.std.specs.Option.{option_map};
ghost use Rattle.branch_removal.specs.Below.{declared_words, term_nodes, term_tree, terms_nodes, value_nodes, words_of};
ghost use Rattle.branch_removal.specs.Bounds.{block_work, iterations_counted, nodes_work, statement_work};
ghost use Rattle.branch_removal.specs.Heights.{depth_in, depth_in_all, height_in, height_in_all, height_of};
ghost use Rattle.branch_removal.specs.Heights.{height_of_all, result_height};
ghost use Rattle.branch_removal.specs.Straight.{straight_tree, straight_block};
ghost use Rattle.branch_removal.specs.private.Counts.{counted, told};

use crate::StraightStatement;
use inline::{FlatVariable, Term};

/// How many words a variable takes.
pub fn words_taken(variable: &FlatVariable) -> u64
    ensures { result ≡ words_of variable.now }
{
    match variable.elements {
        None => 1,
        Some(size) => {
            let bytes = u64::from(size) * u64::from(variable.word.kind.element_bytes());
            bytes.div_ceil(4)
        }
    }
}

/// How many words variables take in all.
pub fn all_words_taken(declared: &[FlatVariable]) -> u64
    ensures { result ≡ counted (declared_words declared.now) }
{
    let mut sum = 0u64;
    for variable in declared {
        sum = sum.saturating_add(words_taken(variable));
    }
    sum
}

/// How many nodes an expression has.
fn term_nodes(term: &Term) -> u64
    ensures { result ≡ counted (term_nodes (term_tree term.now)) }
{
    match term {
        Term::Number(_, _) => 1,
        Term::Truth(_) => 1,
        Term::Variable(_) => 1,
        Term::Prefix(_, _, operand) => term_nodes(operand).saturating_add(1),
        Term::Binary(_, _, _, left, right) => term_nodes(left)
            .saturating_add(term_nodes(right))
            .saturating_add(1),
        Term::Rotate(_, operand, _) => term_nodes(operand).saturating_add(1),
        Term::Convert(_, operand) => term_nodes(operand).saturating_add(1),
        Term::Select(condition, accepted, otherwise) => term_nodes(condition)
            .saturating_add(term_nodes(accepted))
            .saturating_add(term_nodes(otherwise))
            .saturating_add(1),
        Term::Element(_, _, _, index) => term_nodes(index).saturating_add(1),
    }
}

/// How many temporaries an expression has at once, beside the first.
fn height(term: &Term) -> u64
    ensures { result ≡ counted (height_of (term_tree term.now)) }
{
    match term {
        Term::Number(_, _) => 0,
        Term::Truth(_) => 0,
        Term::Variable(_) => 0,
        Term::Prefix(_, _, operand) => height(operand),
        Term::Binary(_, _, _, left, right) => height(left).max(height(right).saturating_add(1)),
        Term::Rotate(_, operand, _) => height(operand),
        Term::Convert(_, operand) => height(operand),
        Term::Select(condition, accepted, otherwise) => {
            let arms = height(accepted).max(height(otherwise).saturating_add(1));
            height(condition).max(arms.saturating_add(1))
        }
        Term::Element(_, _, _, index) => height(index),
    }
}

/// How large code is.
#[derive(Clone, Copy)]
pub struct StraightSize {
    /// How much work a run is at most.
    pub work: u64,
    /// How many temporaries there are at once, beside the first.
    pub height: u64,
    /// How many loops there are, one in the other.
    pub depth: u64,
}

/// How large expressions are, of which each value is needed by itself.
fn size_of_all(terms: &[Term]) -> StraightSize
    ensures work { result.work ≡ counted (terms_nodes (map term_tree terms.now)) }
    ensures height { result.height ≡ counted (height_of_all (map term_tree terms.now)) }
    ensures depth { result.depth ≡ 0 }
{
    let mut work = 0u64;
    let mut greatest = 0u64;
    for term in terms {
        work = work.saturating_add(term_nodes(term));
        greatest = height(term).max(greatest);
    }
    StraightSize {
        work,
        height: greatest,
        depth: 0,
    }
}

/// The work of what evaluates so many nodes.
fn nodes_work(nodes: u64) -> u64
    ensures { result ≡ nodes_work nodes }
{
    nodes / 2 + 1
}

/// How many iterations are counted for a loop: those of its counter, and no more than lie between two numbers.
fn iterations_counted(iterations: &[u32], counter: u32, low: &Term, high: &Term) -> u32
    ensures { result ≡ iterations_counted iterations.now counter (term_tree low.now) (term_tree high.now) }
{
    let most = iterations.get(counter as usize).copied().unwrap_or(0);
    match (low, high) {
        (Term::Number(low, _), Term::Number(high, _)) => high.saturating_sub(*low).min(most),
        _ => most,
    }
}

/// How large a branch is, by its condition and its arms.
fn branch_size(condition: &Term, accepted: StraightSize, otherwise: StraightSize) -> StraightSize
    ensures work { told result.work
        ≡ told (nodes_work (term_nodes (term_tree condition.now)) + accepted.work + otherwise.work) }
    ensures height { result.height
        ≡ max (counted (height_of (term_tree condition.now))) (max accepted.height otherwise.height) }
    ensures depth { result.depth ≡ max accepted.depth otherwise.depth }
{
    StraightSize {
        work: nodes_work(term_nodes(condition))
            .saturating_add(accepted.work)
            .saturating_add(otherwise.work),
        height: height(condition).max(accepted.height.max(otherwise.height)),
        depth: accepted.depth.max(otherwise.depth),
    }
}

/// How large a loop of so many iterations is, by its bounds and its body.
fn loop_size(iterations: u64, low: &Term, high: &Term, iteration: StraightSize) -> StraightSize
    requires { iterations < 2 ^ 32 }
    ensures work { result.work
        ≡ counted (term_nodes (term_tree low.now) + term_nodes (term_tree high.now)
        + (iterations + 1) * counted (1 + iteration.work)) }
    ensures height { result.height
        ≡ max (max (counted (height_of (term_tree low.now))) (counted (height_of (term_tree high.now))))
        iteration.height }
    ensures depth { result.depth ≡ counted (1 + iteration.depth) }
{
    let all = iteration
        .work
        .saturating_add(1)
        .saturating_mul(iterations + 1);
    StraightSize {
        work: term_nodes(low)
            .saturating_add(term_nodes(high))
            .saturating_add(all),
        height: height(low).max(height(high)).max(iteration.height),
        depth: iteration.depth.saturating_add(1),
    }
}

/// How large a statement is, with so many iterations for the loop of each counter.
#[cycle(sizes)]
fn statement_size(iterations: &[u32], statement: &StraightStatement) -> StraightSize
    ensures work { told result.work ≡ told (statement_work iterations.now (straight_tree statement.now)) }
    ensures height { result.height ≡ counted (height_in (straight_tree statement.now)) }
    ensures depth { result.depth ≡ counted (depth_in (straight_tree statement.now)) }
{
    match statement {
        StraightStatement::Set(_, _, value) => StraightSize {
            work: nodes_work(term_nodes(value)),
            height: height(value),
            depth: 0,
        },
        StraightStatement::Array(_, size, values) => {
            let all = size_of_all(values);
            StraightSize {
                work: all.work.saturating_add(u64::from(*size) + 1),
                height: all.height,
                depth: 0,
            }
        }
        StraightStatement::Put(_, _, _, _, index, value) => StraightSize {
            work: nodes_work(term_nodes(index).saturating_add(term_nodes(value))),
            height: height(index).max(height(value).saturating_add(1)),
            depth: 0,
        },
        StraightStatement::Take(_, _, condition) => StraightSize {
            work: nodes_work(term_nodes(condition)),
            height: height(condition),
            depth: 0,
        },
        StraightStatement::Branch(condition, accepted, otherwise) => {
            let one = block_size(iterations, accepted);
            let other = block_size(iterations, otherwise);
            branch_size(condition, one, other)
        }
        StraightStatement::Repeat(counter, low, high, body) => {
            let iteration = block_size(iterations, body);
            let count = iterations_counted(iterations, *counter, low, high);
            loop_size(u64::from(count), low, high, iteration)
        }
    }
}

/// How large statements are, one after the other.
#[cycle(sizes)]
pub fn block_size(iterations: &[u32], statements: &[StraightStatement]) -> StraightSize
    ensures work { told result.work ≡ told (block_work iterations.now (straight_block statements.now)) }
    ensures height { result.height ≡ counted (height_in_all (straight_block statements.now)) }
    ensures depth { result.depth ≡ counted (depth_in_all (straight_block statements.now)) }
{
    let mut work = 0u64;
    let mut height = 0u64;
    let mut depth = 0u64;
    for statement in statements {
        let one = statement_size(iterations, statement);
        work = work.saturating_add(one.work);
        height = one.height.max(height);
        depth = one.depth.max(depth);
    }
    StraightSize {
        work,
        height,
        depth,
    }
}

/// How large a result is, where there is one.
pub fn result_size(value: Option<&Term>) -> StraightSize
    ensures work { result.work ≡ counted (value_nodes (option_map (λ term. term_tree term.now) value.entry)) }
    ensures height { result.height ≡ counted (result_height (option_map (λ term. term_tree term.now) value.entry)) }
    ensures depth { result.depth ≡ 0 }
{
    match value {
        None => StraightSize {
            work: 0,
            height: 0,
            depth: 0,
        },
        Some(value) => StraightSize {
            work: term_nodes(value).saturating_add(1),
            height: height(value),
            depth: 0,
        },
    }
}
