// Statements whose expressions are made anew.

ghost use Rattle.std.specs.Prelude.{◌≡◌, IfOk, OnOk};
ghost use Rattle.straight_words.specs.Below.{chain, straight_block, straight_tree};
ghost use Rattle.straight_words.specs.private.Rewriting.{rewritten_all, rewritten_in};

use crate::rewriting::Rewriting;
use crate::rewriting::terms::{all_rewritten, rewritten};
use branch_removal::{StraightStatement, branch_of, loop_of};
use std::alloc::{AllocError, Global};

/// A statement.
#[cycle(statements)]
pub fn rewritten_statement<R: Rewriting>(
    alloc: Global,
    rewriting: &R,
    statement: &StraightStatement,
) -> Result<StraightStatement, AllocError>
    ensures { IfOk result (λ made.
        straight_tree made ≡ rewritten_in (R.rule rewriting.now) (straight_tree statement.now)) }
{
    match statement {
        StraightStatement::Set(within, variable, value) => {
            let value = rewritten(alloc, rewriting, value)?;
            Ok(StraightStatement::Set(*within, *variable, value))
        }
        StraightStatement::Array(array, size, values) => {
            let values = all_rewritten(alloc, rewriting, values)?;
            Ok(StraightStatement::Array(*array, *size, values))
        }
        StraightStatement::Put(within, place, array, size, index, value) => {
            let index = rewritten(alloc, rewriting, index)?;
            let value = rewritten(alloc, rewriting, value)?;
            Ok(StraightStatement::Put(*within, *place, *array, *size, index, value))
        }
        StraightStatement::Take(control, within, condition) => {
            let condition = rewritten(alloc, rewriting, condition)?;
            Ok(StraightStatement::Take(*control, *within, condition))
        }
        StraightStatement::Branch(condition, accepted, otherwise) => {
            let condition = rewritten(alloc, rewriting, condition)?;
            let one = block(alloc, rewriting, accepted)?;
            let other = block(alloc, rewriting, otherwise)?;
            Ok(branch_of(condition, one, other))
        }
        StraightStatement::Repeat(counter, low, high, body) => {
            let low = rewritten(alloc, rewriting, low)?;
            let high = rewritten(alloc, rewriting, high)?;
            let iteration = block(alloc, rewriting, body)?;
            Ok(loop_of(*counter, low, high, iteration))
        }
    }
}

/// Puts statements behind others, one after the other.
#[cycle(statements)]
pub fn push_all<R: Rewriting>(
    alloc: Global,
    rewriting: &R,
    code: &mut Vec<StraightStatement>,
    body: &[StraightStatement],
) -> Result<(), AllocError>
    ensures { OnOk result (straight_block code.new.items
        ≡ chain (straight_block code.old.items) (rewritten_all (R.rule rewriting.now) (straight_block body.now))) }
{
    for each in body {
        code.push(rewritten_statement(alloc, rewriting, each)?)?;
    }
    Ok(())
}

/// Statements, one after the other.
#[cycle(statements)]
pub fn block<R: Rewriting>(
    alloc: Global,
    rewriting: &R,
    body: &[StraightStatement],
) -> Result<Vec<StraightStatement>, AllocError>
    ensures { IfOk result (λ code.
        straight_block code.items ≡ rewritten_all (R.rule rewriting.now) (straight_block body.now)) }
{
    let mut code = Vec::new(alloc);
    push_all(alloc, rewriting, &mut code, body)?;
    Ok(code)
}
