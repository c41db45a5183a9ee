// How much each control value is read: each place that reads it counts 8 to the number of loops around it.

ghost use Rattle.std.specs.Prelude.{◌≡◌, ◌==◌, map, IfOk};
ghost use Rattle.codegen.specs.Below.{straight_block, straight_tree};
ghost use Rattle.codegen.specs.private.Reads.{unread_of};
ghost use Rattle.codegen.specs.private.Uses.{control_weights_of, controls_read_by, controls_read_by_all, used_within};

use branch_removal::{StraightCode, StraightStatement, count_use, weight_inside};
use std::alloc::{AllocError, Global};

/// Counts the use of an enclosing control value, where there is one.
fn count_within(weights: &mut [u64], weight: u64, within: Option<u32>)
    ensures { weights.new ≡ used_within weight within weights.old }
{
    if let Some(control) = within {
        count_use(weights, weight, control);
    }
}

/// Counts the control values that a statement reads.
#[cycle(counts)]
fn count_by(weights: &mut [u64], weight: u64, statement: &StraightStatement)
    ensures { weights.new ≡ controls_read_by weight (straight_tree statement.now) weights.old }
{
    match statement {
        StraightStatement::Array(_, _, _) => {}
        StraightStatement::Set(within, _, _)
        | StraightStatement::Put(within, _, _, _, _, _)
        | StraightStatement::Take(_, within, _) => count_within(weights, weight, *within),
        StraightStatement::Branch(_, accepted, otherwise) => {
            count_by_all(weights, weight, accepted);
            count_by_all(weights, weight, otherwise);
        }
        StraightStatement::Repeat(_, _, _, body) => {
            count_by_all(weights, weight_inside(weight), body);
        }
    }
}

/// Counts the control values that statements read.
#[cycle(counts)]
fn count_by_all(weights: &mut [u64], weight: u64, statements: &[StraightStatement])
    ensures { weights.new ≡ controls_read_by_all weight (straight_block statements.now) weights.old }
{
    for statement in statements {
        count_by(weights, weight, statement);
    }
}

/// How much each control value of a program is read, by its number.
pub fn control_weights(alloc: Global, straight: &StraightCode<'_>) -> Result<Vec<u64>, AllocError>
    ensures { IfOk result (λ weights. weights.items ≡ control_weights_of straight.now) }
{
    let mut weights = vec![in alloc; 0; straight.controls() as usize]?;
    count_by_all(weights.as_mut_slice(), 1, straight.body());
    Ok(weights)
}

/// Whether nothing is counted, for each of these weights.
fn unread(alloc: Global, weights: &[u64]) -> Result<Vec<bool>, AllocError>
    ensures { IfOk result (λ unread. unread.items ≡ map (λ weight. weight == 0) weights.now) }
{
    let mut unread = Vec::with_capacity(alloc, weights.len())?;
    for weight in weights {
        unread.push(*weight == 0)?;
    }
    Ok(unread)
}

/// Whether nothing reads each control value of a program, by its number.
pub fn unread_controls(alloc: Global, straight: &StraightCode<'_>) -> Result<Vec<bool>, AllocError>
    ensures { IfOk result (λ unread. unread.items ≡ unread_of straight.now) }
{
    let weights = control_weights(alloc, straight)?;
    unread(alloc, weights.as_slice())
}
