// How much each word variable is used: each use counts 8 to the number of loops around it.

ghost use Rattle.std.specs.Prelude.{◌≡◌, map, IfOk};
ghost use Rattle.branch_removal.specs.Straight.{straight_tree, straight_block};
ghost use Rattle.branch_removal.specs.Uses.{used, used_in, used_in_terms, used_by, used_by_all, weight_inside};
ghost use Rattle.branch_removal.specs.Uses.{weights_of};
ghost use Rattle.branch_removal.specs.Below.{term_tree};

use crate::{StraightCode, StraightStatement};
use inline::Term;
use std::alloc::{AllocError, Global};

/// How much more a use counts for each loop around it.
const LOOP_FACTOR: u64 = 8;

/// What a use in a loop counts, where one outside it counts so much.
pub fn weight_inside(weight: u64) -> u64
    ensures { result ≡ weight_inside weight }
{
    weight.saturating_mul(LOOP_FACTOR)
}

/// Counts one use of a variable or control value.
pub fn count_use(weights: &mut [u64], weight: u64, number: u32)
    ensures { weights.new ≡ used weight number weights.old }
{
    let place = number as usize;
    if place < weights.len() {
        weights[place] = weights[place].saturating_add(weight);
    }
}

/// Counts the uses in an expression.
fn count_in(weights: &mut [u64], weight: u64, term: &Term)
    ensures { weights.new ≡ used_in weight (term_tree term.now) weights.old }
{
    match term {
        Term::Number(_, _) | Term::Truth(_) => {}
        Term::Variable(variable) => count_use(weights, weight, *variable),
        Term::Prefix(_, _, operand)
        | Term::Rotate(_, operand, _)
        | Term::Convert(_, operand)
        | Term::Element(_, _, _, operand) => count_in(weights, weight, operand),
        Term::Binary(_, _, _, left, right) => {
            count_in(weights, weight, left);
            count_in(weights, weight, right);
        }
        Term::Select(condition, accepted, otherwise) => {
            count_in(weights, weight, condition);
            count_in(weights, weight, accepted);
            count_in(weights, weight, otherwise);
        }
    }
}

/// Counts the uses in expressions.
fn count_in_terms(weights: &mut [u64], weight: u64, terms: &[Term])
    ensures { weights.new ≡ used_in_terms weight (map term_tree terms.now) weights.old }
{
    for term in terms {
        count_in(weights, weight, term);
    }
}

/// Counts the uses in a statement.
#[cycle(counts)]
fn count_by(weights: &mut [u64], weight: u64, statement: &StraightStatement)
    ensures { weights.new ≡ used_by weight (straight_tree statement.now) weights.old }
{
    match statement {
        StraightStatement::Set(_, variable, value) => {
            count_in(weights, weight, value);
            count_use(weights, weight, *variable);
        }
        StraightStatement::Array(_, _, values) => count_in_terms(weights, weight, values),
        StraightStatement::Put(_, _, _, _, index, value) => {
            count_in(weights, weight, index);
            count_in(weights, weight, value);
        }
        StraightStatement::Take(_, _, condition) => count_in(weights, weight, condition),
        StraightStatement::Branch(condition, accepted, otherwise) => {
            count_in(weights, weight, condition);
            count_by_all(weights, weight, accepted);
            count_by_all(weights, weight, otherwise);
        }
        StraightStatement::Repeat(counter, low, high, body) => {
            count_in(weights, weight, low);
            count_in(weights, weight, high);
            let inside = weight_inside(weight);
            count_use(weights, inside, *counter);
            count_by_all(weights, inside, body);
        }
    }
}

/// Counts the uses in statements.
#[cycle(counts)]
fn count_by_all(weights: &mut [u64], weight: u64, statements: &[StraightStatement])
    ensures { weights.new ≡ used_by_all weight (straight_block statements.now) weights.old }
{
    for statement in statements {
        count_by(weights, weight, statement);
    }
}

/// How much each variable of a program is used, by its number.
pub fn variable_weights(alloc: Global, straight: &StraightCode<'_>) -> Result<Vec<u64>, AllocError>
    ensures { IfOk result (λ weights. weights.items ≡ weights_of straight.now) }
{
    let mut weights = vec![in alloc; 0; straight.declared().len()]?;
    count_by_all(weights.as_mut_slice(), 1, straight.body());
    if let Some(value) = straight.value() {
        count_in(weights.as_mut_slice(), 1, value);
    }
    Ok(weights)
}
