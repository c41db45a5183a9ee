// Where the procedure is called that a place is in.

ghost use Rattle.std.specs.Prelude.{◌≡◌, ◌++◌, IfOk, OnOk};
ghost use Rattle.std.specs.String.{string_bytes};
ghost use Rattle.explanations.specs.call_places.CallPlaces.{procedure_at};
ghost use Rattle.explanations.specs.Below.{procedure_tree, program_tree};
ghost use Rattle.explanations.specs.refusal_details.Details.{called_line, calls_line, most_others, others_text};
ghost use Rattle.explanations.specs.refusal_details.Details.{places_text, procedure_line};

use crate::call_places::{call_places, procedure_at};
use language::{Place, Procedure, Program};
use std::alloc::{AllocError, Global};
use std::fmt::Write;

/// How many places are listed beside the first.
const MOST_OTHERS: usize = 7;

/// What is said of the procedure that a place behind so many bytes is in.
pub fn calls_line(alloc: Global, at: u32, program: &Program) -> Result<String, AllocError>
    ensures { IfOk result (λ line. string_bytes line ≡ calls_line at (program_tree program.now).procedures) }
{
    match procedure_at(at, program) {
        Some(procedure) => {
            let name = procedure.name.as_str();
            let places = call_places(alloc, program, name)?;
            called_line(alloc, name, places.as_slice())
        }
        None => Ok(String::new(alloc)),
    }
}

/// What is said of a procedure that is called at these places.
fn called_line(alloc: Global, name: &str, places: &[Place]) -> Result<String, AllocError>
    ensures { IfOk result (λ line. string_bytes line ≡ called_line name.now places.now) }
{
    match places.split_first() {
        Some((first, others)) => {
            let others = others_text(alloc, others)?;
            format!(in alloc; "  this is in `{name}`, which is called at {first}{others}\n")
        }
        None => Ok(String::new(alloc)),
    }
}

/// The places of further calls, and two dots where they are not all.
fn others_text(alloc: Global, places: &[Place]) -> Result<String, AllocError>
    ensures { IfOk result (λ text. string_bytes text ≡ others_text places.now) }
{
    let mut text = String::new(alloc);
    push_places(&mut text, &places[..MOST_OTHERS.min(places.len())])?;
    if MOST_OTHERS < places.len() {
        text.push_str(", ..")?;
    }
    Ok(text)
}

/// Puts places at the end of a text, each behind a comma.
fn push_places(text: &mut String, places: &[Place]) -> Result<(), AllocError>
    ensures { OnOk result (string_bytes text.new ≡ string_bytes text.old ++ places_text places.now) }
{
    for place in places {
        write!(text, ", {place}")?;
    }
    Ok(())
}
