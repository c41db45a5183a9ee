ghost use Rattle.std.specs.Prelude.{◌≡◌, ◌+◌, ◌^◌, ◌<◌, map, IfOk, IfErr, OnOk};
ghost use Rattle.branch_removal.specs.Below.{branch, flat_block, flat_tree, Public, Secret, term_tree};
ghost use Rattle.language.specs.WantOfMemory.{IsWantOfMemory};
ghost use Rattle.branch_removal.specs.private.Removal.{controls_in, controls_in_all, removed, removed_all, single};
ghost use Rattle.branch_removal.specs.Exact.{straight_of};
ghost use Rattle.branch_removal.specs.Removed.{IsRemoved};
ghost use Rattle.branch_removal.specs.Straight as straight;
ghost use Rattle.branch_removal.specs.Straight.{straight_tree, straight_block, chain, repeats};

use crate::controls::controls_in_all;
use crate::copies::{all_copied, copied, copied_where_any};
use crate::nesting::{branch_of, loop_of};
use crate::{Straight, StraightCode, StraightStatement};
use inline::{FlatStatement, Term};
use intervals::Ranged;
use language::{Label, Refusal};
use std::alloc::{AllocError, Global};
use word::Place;

/// Puts a statement behind what there is.
fn push(code: &mut Vec<StraightStatement>, one: StraightStatement) -> Result<(), AllocError>
    ensures { OnOk result (straight_block code.new.items
        ≡ chain (straight_block code.old.items) (single (straight_tree one))) }
{
    code.push(one)?;
    Ok(())
}

/// A variable is set to a copy of a value, under the enclosing control value, where there is one.
fn set(
    alloc: Global,
    within: Option<u32>,
    variable: u32,
    value: &Term,
) -> Result<StraightStatement, AllocError>
    ensures { IfOk result (λ one. straight_tree one ≡ straight.set within variable (term_tree value.now)) }
{
    let value = copied(alloc, value)?;
    Ok(StraightStatement::Set(within, variable, value))
}

/// An element is set to a copy of a value, at a copy of an index.
fn put(
    alloc: Global,
    within: Option<u32>,
    place: Place,
    variable: u32,
    size: u32,
    index: &Term,
    value: &Term,
) -> Result<StraightStatement, AllocError>
    ensures { IfOk result (λ one. straight_tree one
        ≡ straight.put within place variable size (term_tree index.now) (term_tree value.now)) }
{
    let index = copied(alloc, index)?;
    let value = copied(alloc, value)?;
    Ok(StraightStatement::Put(within, place, variable, size, index, value))
}

/// A new array of copies of its first values.
fn array(
    alloc: Global,
    variable: u32,
    size: u32,
    values: &[Term],
) -> Result<StraightStatement, AllocError>
    ensures { IfOk result (λ one. straight_tree one ≡ straight.array variable size (map term_tree values.now)) }
{
    let values = all_copied(alloc, values)?;
    Ok(StraightStatement::Array(variable, size, values))
}

/// A loop with copies of its bounds, whose body is straight already.
fn repeat(
    alloc: Global,
    counter: u32,
    low: &Term,
    high: &Term,
    iteration: Vec<StraightStatement>,
) -> Result<StraightStatement, AllocError>
    ensures { IfOk result (λ one. straight_tree one
        ≡ repeats counter (term_tree low.now) (term_tree high.now) (straight_block iteration.items)) }
{
    let low = copied(alloc, low)?;
    let high = copied(alloc, high)?;
    Ok(loop_of(counter, low, high, iteration))
}

/// Puts a statement's straight code behind what there is. Its own control values are from `control` on.
#[cycle(removal)]
fn push_removed(
    alloc: Global,
    code: &mut Vec<StraightStatement>,
    within: Option<u32>,
    control: u32,
    statement: &FlatStatement,
) -> Result<(), AllocError>
    requires numbered { control + controls_in (flat_tree statement.now) < 2 ^ 32 }
    ensures { OnOk result (straight_block code.new.items
        ≡ chain (straight_block code.old.items) (removed within control (flat_tree statement.now))) }
{
    match statement {
        FlatStatement::Declare(variable, _, _, value)
        | FlatStatement::Hold(variable, _, _, value) => {
            push(code, set(alloc, None, *variable, value)?)
        }
        FlatStatement::DeclareArray(variable, _, _, size, values) => {
            push(code, array(alloc, *variable, *size, values)?)
        }
        FlatStatement::Assign(variable, value) => {
            push(code, set(alloc, within, *variable, value)?)
        }
        FlatStatement::AssignElement(place, variable, size, index, value) => {
            push(
                code,
                put(alloc, within, *place, *variable, *size, index, value)?,
            )
        }
        FlatStatement::Skip => Ok(()),
        FlatStatement::Branch(label, condition, accepted, otherwise) => match label {
            Label::Secret => {
                push_secret(alloc, code, within, control, condition, accepted, otherwise)
            }
            Label::Public => {
                push_public(alloc, code, within, control, condition, accepted, otherwise)
            }
        },
        FlatStatement::Loop(counter, low, high, body) => {
            let iteration = part(alloc, within, control, body)?;
            push(code, repeat(alloc, *counter, low, high, iteration)?)
        }
    }
}

/// The same for a branch on a secret: its condition is taken, and both arms follow.
#[cycle(removal)]
fn push_secret(
    alloc: Global,
    code: &mut Vec<StraightStatement>,
    within: Option<u32>,
    control: u32,
    condition: &Term,
    accepted: &[FlatStatement],
    otherwise: &[FlatStatement],
) -> Result<(), AllocError>
    requires accepted { control + 2 + controls_in_all (flat_block accepted.now) < 2 ^ 32 }
    requires otherwise { control + 2 + controls_in_all (flat_block otherwise.now) < 2 ^ 32 }
    ensures { OnOk result (straight_block code.new.items
        ≡ chain (straight_block code.old.items)
        (removed within control (branch Secret (term_tree condition.now) (flat_block accepted.now)
        (flat_block otherwise.now)))) }
{
    let condition = copied(alloc, condition)?;
    push(code, StraightStatement::Take(control, within, condition))?;
    push_removed_all(alloc, code, Some(control), control + 2, accepted)?;
    push_removed_all(alloc, code, Some(control + 1), control + 2, otherwise)
}

/// The same for a branch on what is public: it stays one.
#[cycle(removal)]
fn push_public(
    alloc: Global,
    code: &mut Vec<StraightStatement>,
    within: Option<u32>,
    control: u32,
    condition: &Term,
    accepted: &[FlatStatement],
    otherwise: &[FlatStatement],
) -> Result<(), AllocError>
    requires accepted { control + controls_in_all (flat_block accepted.now) < 2 ^ 32 }
    requires otherwise { control + controls_in_all (flat_block otherwise.now) < 2 ^ 32 }
    ensures { OnOk result (straight_block code.new.items
        ≡ chain (straight_block code.old.items)
        (removed within control (branch Public (term_tree condition.now) (flat_block accepted.now)
        (flat_block otherwise.now)))) }
{
    let one = part(alloc, within, control, accepted)?;
    let other = part(alloc, within, control, otherwise)?;
    let condition = copied(alloc, condition)?;
    push(code, branch_of(condition, one, other))
}

/// The straight code of an arm, or of the body of a loop, by itself.
#[cycle(removal)]
fn part(
    alloc: Global,
    within: Option<u32>,
    control: u32,
    body: &[FlatStatement],
) -> Result<Vec<StraightStatement>, AllocError>
    requires numbered { control + controls_in_all (flat_block body.now) < 2 ^ 32 }
    ensures { IfOk result (λ code. straight_block code.items ≡ removed_all within control (flat_block body.now)) }
{
    let mut code = Vec::new(alloc);
    push_removed_all(alloc, &mut code, within, control, body)?;
    Ok(code)
}

/// The same for some statements.
#[cycle(removal)]
fn push_removed_all(
    alloc: Global,
    code: &mut Vec<StraightStatement>,
    within: Option<u32>,
    control: u32,
    body: &[FlatStatement],
) -> Result<(), AllocError>
    requires numbered { control + controls_in_all (flat_block body.now) < 2 ^ 32 }
    ensures { OnOk result (straight_block code.new.items
        ≡ chain (straight_block code.old.items) (removed_all within control (flat_block body.now))) }
{
    for statement in body {
        push_removed(alloc, code, within, control, statement)?;
    }
    Ok(())
}

/// A body's straight code: its outcome is that of the body, it meets no fault, and what a run of it shows is
/// decided by what is public. The body alone decides which code it is. Running out of memory alone refuses it.
pub fn remove<'r>(alloc: Global, ranged: &'r Ranged<'_>) -> Result<Straight<'r>, Refusal>
    ensures removed { IfOk result (IsRemoved ranged.now) }
    ensures declared { IfOk result (λ straight. straight.declared ≡ ranged.now.flat.declared) }
    ensures exact { IfOk result (λ straight. straight ≡ straight_of ranged.now) }
    ensures memory { IfErr result (λ refusal. IsWantOfMemory refusal.rule refusal.place) }
{
    let flat = ranged.flat();
    let body = flat.body();
    let controls = controls_in_all(body);
    let mut code = Vec::new(alloc);
    push_removed_all(alloc, &mut code, None, 0, body)?;
    let value = copied_where_any(alloc, flat.value())?;
    let straight = StraightCode::new(ranged, controls, code, value);
    Ok(Straight::new(straight))
}
