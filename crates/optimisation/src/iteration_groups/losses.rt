// What iterations lose in groups: reads of the counter that are no index, each of which takes a sum then, and elements
// of arrays that might become words if each iteration had code of its own.

ghost use Rattle.std.specs.Prelude.{◌≡◌, ◌==◌, if◌then◌else◌, map};
ghost use Rattle.optimisation.specs.Below.{straight_block, straight_tree, term_tree};
ghost use Rattle.straight_words.specs.element_words.private.Parts.{part_of};
ghost use Rattle.optimisation.specs.iteration_groups.private.Losses.{all_lost, is_near, is_number, is_variable, lost};
ghost use Rattle.optimisation.specs.iteration_groups.private.Losses.{lost_at, lost_by, lost_by_all, lost_part, moves};
ghost use Rattle.optimisation.specs.private.Nodes.{counted};

use branch_removal::StraightStatement;
use inline::Term;
use language::BinaryOperator;
use straight_words::element_words::SplitArrays;

/// Whether an expression is a variable.
fn is_variable(term: &Term) -> bool
    ensures { result ≡ is_variable (term_tree term.now) }
{
    matches!(term, Term::Variable(_))
}

/// Whether an expression is a number.
fn is_number(term: &Term) -> bool
    ensures { result ≡ is_number (term_tree term.now) }
{
    matches!(term, Term::Number(_, _))
}

/// Whether a variable and a number have this operator between them, so that the value is so much more or less.
fn moves(operator: BinaryOperator, left: &Term, right: &Term) -> bool
    ensures { result ≡ moves operator (term_tree left.now) (term_tree right.now) }
{
    match operator {
        BinaryOperator::Add => {
            is_variable(left) && is_number(right) || is_number(left) && is_variable(right)
        }
        BinaryOperator::Subtract => is_variable(left) && is_number(right),
        _ => false,
    }
}

/// Whether an index is a variable, or differs from one by a number.
pub fn is_near(index: &Term) -> bool
    ensures { result ≡ is_near (term_tree index.now) }
{
    match index {
        Term::Variable(_) => true,
        Term::Binary(_, operator, _, left, right) => moves(*operator, left, right),
        _ => false,
    }
}

/// What is lost by the use of an array.
fn lost_by_array(arrays: &SplitArrays, array: u32) -> u64
    ensures { result ≡ lost_part (part_of arrays.now.arrays.items array) }
{
    match arrays.of(array) {
        Some(_) => 1,
        None => 0,
    }
}

/// What is lost by a read of a variable.
fn lost_by_read(counter: u32, variable: u32) -> u64
    ensures { result ≡ (if variable == counter then 1 else 0) }
{
    if variable == counter { 1 } else { 0 }
}

/// What is lost by an expression.
fn lost_in(arrays: &SplitArrays, counter: u32, term: &Term) -> u64
    ensures { result ≡ counted (lost arrays.now.arrays.items counter (term_tree term.now)) }
{
    match term {
        Term::Number(_, _) | Term::Truth(_) => 0,
        Term::Variable(variable) => lost_by_read(counter, *variable),
        Term::Prefix(_, _, operand) | Term::Rotate(_, operand, _) | Term::Convert(_, operand) => {
            lost_in(arrays, counter, operand)
        }
        Term::Binary(_, _, _, left, right) => {
            let one = lost_in(arrays, counter, left);
            one.saturating_add(lost_in(arrays, counter, right))
        }
        Term::Select(condition, accepted, otherwise) => lost_in(arrays, counter, condition)
            .saturating_add(lost_in(arrays, counter, accepted))
            .saturating_add(lost_in(arrays, counter, otherwise)),
        Term::Element(_, array, _, index) => {
            let own = lost_by_array(arrays, *array);
            if is_near(index) {
                own
            } else {
                own.saturating_add(lost_in(arrays, counter, index))
            }
        }
    }
}

/// What is lost by an index.
fn lost_at(arrays: &SplitArrays, counter: u32, index: &Term) -> u64
    ensures { result ≡ counted (lost_at arrays.now.arrays.items counter (term_tree index.now)) }
{
    if is_near(index) {
        0
    } else {
        lost_in(arrays, counter, index)
    }
}

/// What is lost by expressions.
fn lost_in_all(arrays: &SplitArrays, counter: u32, terms: &[Term]) -> u64
    ensures { result ≡ counted (all_lost arrays.now.arrays.items counter (map term_tree terms.now)) }
{
    let mut sum = 0u64;
    for term in terms {
        sum = sum.saturating_add(lost_in(arrays, counter, term));
    }
    sum
}

/// What is lost by a statement.
#[cycle(losses)]
fn lost_by(arrays: &SplitArrays, counter: u32, statement: &StraightStatement) -> u64
    ensures { result ≡ counted (lost_by arrays.now.arrays.items counter (straight_tree statement.now)) }
{
    match statement {
        StraightStatement::Set(_, _, value) | StraightStatement::Take(_, _, value) => {
            lost_in(arrays, counter, value)
        }
        StraightStatement::Array(array, _, values) => {
            lost_by_array(arrays, *array).saturating_add(lost_in_all(arrays, counter, values))
        }
        StraightStatement::Put(_, _, array, _, index, value) => lost_by_array(arrays, *array)
            .saturating_add(lost_at(arrays, counter, index))
            .saturating_add(lost_in(arrays, counter, value)),
        StraightStatement::Branch(condition, accepted, otherwise) => {
            lost_in(arrays, counter, condition)
                .saturating_add(lost_by_all(arrays, counter, accepted))
                .saturating_add(lost_by_all(arrays, counter, otherwise))
        }
        StraightStatement::Repeat(_, low, high, body) => lost_in(arrays, counter, low)
            .saturating_add(lost_in(arrays, counter, high))
            .saturating_add(lost_by_all(arrays, counter, body)),
    }
}

/// What is lost by statements.
#[cycle(losses)]
pub fn lost_by_all(arrays: &SplitArrays, counter: u32, statements: &[StraightStatement]) -> u64
    ensures { result ≡ counted (lost_by_all arrays.now.arrays.items counter (straight_block statements.now)) }
{
    let mut sum = 0u64;
    for statement in statements {
        sum = sum.saturating_add(lost_by(arrays, counter, statement));
    }
    sum
}
