// Statements in which what is known is a number, each put behind what there is. A loop becomes its iterations where it
// may.

ghost use Rattle.std.specs.Prelude.{◌≡◌, IfOk, OnOk};
ghost use Rattle.branch_removal.specs.Straight as straight;
ghost use Rattle.optimisation.specs.Below.{chain, set, straight_block, straight_tree, term_tree};
ghost use Rattle.optimisation.specs.constants.private.Folding.{simple};
ghost use Rattle.optimisation.specs.constants.private.Known.{forgotten_all, words_of};
ghost use Rattle.optimisation.specs.constants.private.Simplification.{knowing, knowing_all, set_to, simplified};
ghost use Rattle.optimisation.specs.constants.private.Simplification.{simplified_all, single, iterations_code};
ghost use Rattle.optimisation.specs.constants.private.Simplification.{iterations_known};

use crate::constants::choice::unroll_limit_of;
use crate::constants::copy_propagation::learn;
use crate::constants::known::{Constant, KnownWords};
use crate::constants::terms::{CounterRange, all_simple, decision, number_of, numbers_of, simple};
use branch_removal::{StraightStatement, branch_of, loop_of};
use inline::{FlatVariable, Term};
use language::Kind;
use std::alloc::{AllocError, Global};

/// How statements are made simpler.
#[derive(Drop)]
pub struct Pass<'p> {
    pub alloc: Global,
    /// How many iterations the loop of each counter may become, at the counter's number.
    pub unroll_limits: &'p [u32],
    pub declared: &'p [FlatVariable],
}

/// Puts a statement behind a block.
fn push(code: &mut Vec<StraightStatement>, statement: StraightStatement) -> Result<(), AllocError>
    ensures { OnOk result (straight_block code.new.items
        ≡ chain (straight_block code.old.items) (single (straight_tree statement))) }
{
    code.push(statement)?;
    Ok(())
}

/// A variable is set to a value, which is learnt where no control value decides.
fn set_simple(
    pass: &Pass<'_>,
    known: &mut KnownWords,
    code: &mut Vec<StraightStatement>,
    within: Option<u32>,
    variable: u32,
    value: &Term,
) -> Result<(), AllocError>
    ensures code { OnOk result (straight_block code.new.items
        ≡ chain (straight_block code.old.items)
        (single (set within variable (simple (words_of known.old) (term_tree value.now))))) }
    ensures known { OnOk result (words_of known.new
        ≡ set_to pass.now.declared.now (words_of known.old) within variable
        (simple (words_of known.old) (term_tree value.now))) }
{
    let value = simple(pass.alloc, known, value)?;
    match within {
        None => learn(pass.declared, known, variable, &value)?,
        Some(_) => known.note(variable, None),
    }
    push(code, StraightStatement::Set(within, variable, value))
}

/// A statement. What is known after it is noted.
#[cycle(simplification)]
fn statement(
    pass: &Pass<'_>,
    known: &mut KnownWords,
    code: &mut Vec<StraightStatement>,
    statement: &StraightStatement,
) -> Result<(), AllocError>
    ensures code { OnOk result (straight_block code.new.items
        ≡ chain (straight_block code.old.items) (simplified pass.now.unroll_limits.now pass.now.declared.now
        (words_of known.old) (straight_tree statement.now))) }
    ensures known { OnOk result (words_of known.new ≡ knowing pass.now.unroll_limits.now pass.now.declared.now
        (words_of known.old) (straight_tree statement.now)) }
{
    match statement {
        StraightStatement::Set(within, variable, value) => {
            set_simple(pass, known, code, *within, *variable, value)
        }
        StraightStatement::Array(array, size, values) => {
            let values = all_simple(pass.alloc, known, values)?;
            known.note(*array, None);
            push(code, StraightStatement::Array(*array, *size, values))
        }
        StraightStatement::Put(within, place, array, size, index, value) => {
            let index = simple(pass.alloc, known, index)?;
            let value = simple(pass.alloc, known, value)?;
            known.note(*array, None);
            push(
                code,
                StraightStatement::Put(*within, *place, *array, *size, index, value),
            )
        }
        StraightStatement::Take(control, within, condition) => {
            let condition = simple(pass.alloc, known, condition)?;
            push(code, StraightStatement::Take(*control, *within, condition))
        }
        StraightStatement::Branch(condition, accepted, otherwise) => {
            branch(pass, known, code, condition, accepted, otherwise)
        }
        StraightStatement::Repeat(counter, low, high, body) => {
            repeat(pass, known, code, *counter, low, high, body)
        }
    }
}

/// A branch: where its condition is a number, the one arm that it decides for.
#[cycle(simplification)]
fn branch(
    pass: &Pass<'_>,
    known: &mut KnownWords,
    code: &mut Vec<StraightStatement>,
    condition: &Term,
    accepted: &[StraightStatement],
    otherwise: &[StraightStatement],
) -> Result<(), AllocError>
    ensures code { OnOk result (straight_block code.new.items
        ≡ chain (straight_block code.old.items) (simplified pass.now.unroll_limits.now pass.now.declared.now
        (words_of known.old) (straight.branch (term_tree condition.now) (straight_block accepted.now)
        (straight_block otherwise.now)))) }
    ensures known { OnOk result (words_of known.new ≡ knowing pass.now.unroll_limits.now pass.now.declared.now
        (words_of known.old) (straight.branch (term_tree condition.now) (straight_block accepted.now)
        (straight_block otherwise.now))) }
{
    let condition = simple(pass.alloc, known, condition)?;
    match decision(&condition) {
        Some(true) => statements(pass, known, code, accepted),
        Some(false) => statements(pass, known, code, otherwise),
        None => {
            let one = part(pass, known, accepted)?;
            let other = part(pass, known, otherwise)?;
            push(code, branch_of(condition, one, other))
        }
    }
}

/// A loop: where its bounds are numbers, and it may become its iterations, these.
#[cycle(simplification)]
fn repeat(
    pass: &Pass<'_>,
    known: &mut KnownWords,
    code: &mut Vec<StraightStatement>,
    counter: u32,
    low: &Term,
    high: &Term,
    body: &[StraightStatement],
) -> Result<(), AllocError>
    ensures code { OnOk result (straight_block code.new.items
        ≡ chain (straight_block code.old.items)
        (simplified pass.now.unroll_limits.now pass.now.declared.now (words_of known.old)
        (straight.repeats counter (term_tree low.now) (term_tree high.now)
        (straight_block body.now)))) }
    ensures known { OnOk result (words_of known.new
        ≡ knowing pass.now.unroll_limits.now pass.now.declared.now (words_of known.old)
        (straight.repeats counter (term_tree low.now) (term_tree high.now)
        (straight_block body.now))) }
{
    let low = simple(pass.alloc, known, low)?;
    let high = simple(pass.alloc, known, high)?;
    let most = unroll_limit_of(pass.unroll_limits, counter);
    match numbers_of(most, &low, &high) {
        Some(numbers) => iterations(pass, known, code, counter, numbers, body),
        None => {
            known.begin_loop(counter, body);
            let iteration = part(pass, known, body)?;
            push(code, loop_of(counter, low, high, iteration))
        }
    }
}

/// The iterations of a loop, one after the other: for each number its counter is set, and then its body runs.
#[cycle(simplification)]
fn iterations(
    pass: &Pass<'_>,
    known: &mut KnownWords,
    code: &mut Vec<StraightStatement>,
    counter: u32,
    numbers: CounterRange,
    body: &[StraightStatement],
) -> Result<(), AllocError>
    ensures code { OnOk result (straight_block code.new.items
        ≡ chain (straight_block code.old.items) (iterations_code pass.now.unroll_limits.now pass.now.declared.now
        (words_of known.old) counter numbers (straight_block body.now))) }
    ensures known { OnOk result (words_of known.new ≡ iterations_known pass.now.unroll_limits.now pass.now.declared.now
        (words_of known.old) counter numbers (straight_block body.now)) }
{
    for value in numbers.low..numbers.high {
        let number = Constant {
            value,
            kind: Kind::Uint32,
        };
        known.note(counter, Some(number));
        push(
            code,
            StraightStatement::Set(None, counter, number_of(number)),
        )?;
        statements(pass, known, code, body)?;
    }
    Ok(())
}

/// An arm, or the body of a loop: it may run or not, so nothing is known behind it of what it sets.
#[cycle(simplification)]
fn part(
    pass: &Pass<'_>,
    known: &mut KnownWords,
    body: &[StraightStatement],
) -> Result<Vec<StraightStatement>, AllocError>
    ensures code { IfOk result (λ code. straight_block code.items
        ≡ simplified_all pass.now.unroll_limits.now pass.now.declared.now (words_of known.old)
        (straight_block body.now)) }
    ensures known { OnOk result (words_of known.new ≡ forgotten_all
        (knowing_all pass.now.unroll_limits.now pass.now.declared.now (words_of known.old) (straight_block body.now))
        (straight_block body.now)) }
{
    let mut code = Vec::new(pass.alloc);
    statements(pass, known, &mut code, body)?;
    known.forget_all(body);
    Ok(code)
}

/// Statements, one after the other.
#[cycle(simplification)]
pub fn statements(
    pass: &Pass<'_>,
    known: &mut KnownWords,
    code: &mut Vec<StraightStatement>,
    body: &[StraightStatement],
) -> Result<(), AllocError>
    ensures code { OnOk result (straight_block code.new.items
        ≡ chain (straight_block code.old.items) (simplified_all pass.now.unroll_limits.now pass.now.declared.now
        (words_of known.old) (straight_block body.now))) }
    ensures known { OnOk result (words_of known.new ≡ knowing_all pass.now.unroll_limits.now pass.now.declared.now
        (words_of known.old) (straight_block body.now)) }
{
    for each in body {
        statement(pass, known, code, each)?;
    }
    Ok(())
}
