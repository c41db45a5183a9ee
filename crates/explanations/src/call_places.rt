// In which procedure of a program a place is, and where that procedure is called.
//
// It promises that the procedure is the last one whose name stands at the place or before it, and that the places are
// those of all calls of it, in their order (`specs/call_places/CallPlaces.antt`). It stands on the syntax tree.

ghost use Rattle.std.specs.Prelude.{◌≡◌, ◌++◌, IfOk, OnOk};
ghost use Rattle.std.specs.Option.{option_map};
ghost use Rattle.explanations.specs.call_places.CallPlaces.{call_places, calls_at, calls_in, calls_in_all};
ghost use Rattle.explanations.specs.call_places.CallPlaces.{calls_in_right, procedure_at};
ghost use Rattle.explanations.specs.Below.{block_tree, call_tree, procedure_tree, program_tree, right_tree};
ghost use Rattle.explanations.specs.Below.{statement_tree};

use language::{Call, Procedure, Program, RightSide, Statement};
use std::alloc::{AllocError, Global};
use word::Place;

/// The last procedure whose name stands behind so many bytes or fewer.
#[tactic(auto, using(crate::proofs::call_places_lemmas::CallLemmas::or_assoc))]
pub fn procedure_at(at: u32, program: &Program) -> Option<&Procedure>
    ensures { option_map (λ found. procedure_tree found.now) result
        ≡ procedure_at at (program_tree program.now).procedures }
{
    let mut last = None;
    let procedures = program.procedures();
    for procedure in procedures {
        if procedure.place.offset <= at {
            last = Some(procedure);
        }
    }
    last
}

/// The places of the calls of a name in a program, in their order.
pub fn call_places(alloc: Global, program: &Program, name: &str) -> Result<Vec<Place>, AllocError>
    ensures { IfOk result (λ places. places.items ≡ call_places name.now (program_tree program.now).procedures) }
{
    let mut places = Vec::new(alloc);
    let procedures = program.procedures();
    for procedure in procedures {
        push_calls(procedure.body.as_slice(), name, &mut places)?;
    }
    Ok(places)
}

/// Puts the place of a call at the end of others, where it is of this name.
fn push_call(call: &Call, name: &str, places: &mut Vec<Place>) -> Result<(), AllocError>
    ensures { OnOk result (places.new.items ≡ places.old.items ++ calls_at name.now (call_tree call.now)) }
{
    if call.name.as_str() == name {
        places.push(call.place)?;
    }
    Ok(())
}

/// The same of a right side.
fn push_right(right: &RightSide, name: &str, places: &mut Vec<Place>) -> Result<(), AllocError>
    ensures { OnOk result (places.new.items ≡ places.old.items ++ calls_in_right name.now (right_tree right.now)) }
{
    match right {
        RightSide::Call(call) => push_call(call, name, places),
        RightSide::Value(_) => Ok(()),
    }
}

/// The same of a statement.
#[cycle(calls)]
fn push_statement(
    statement: &Statement,
    name: &str,
    places: &mut Vec<Place>,
) -> Result<(), AllocError>
    ensures { OnOk result (places.new.items ≡ places.old.items ++ calls_in name.now (statement_tree statement.now)) }
{
    match statement {
        Statement::Declare(it) => push_right(&it.value, name, places),
        Statement::DeclareArray(_) => Ok(()),
        Statement::Assign(it) => push_right(&it.value, name, places),
        Statement::AssignElement(it) => push_right(&it.value, name, places),
        Statement::Call(call) => push_call(call, name, places),
        Statement::If(_, _, accepted, otherwise) => {
            push_calls(accepted.as_slice(), name, places)?;
            push_calls(otherwise.as_slice(), name, places)
        }
        Statement::For(_, _, _, _, body) => push_calls(body.as_slice(), name, places),
    }
}

/// The same of statements in their order.
#[cycle(calls)]
fn push_calls(block: &[Statement], name: &str, places: &mut Vec<Place>) -> Result<(), AllocError>
    ensures { OnOk result (places.new.items ≡ places.old.items ++ calls_in_all name.now (block_tree block.now)) }
{
    for statement in block {
        push_statement(statement, name, places)?;
    }
    Ok(())
}
