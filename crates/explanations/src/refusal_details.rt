// What is said of a refusal beside its rule: lines with what there is at the place, for who wrote the source.
//
// It promises which lines these are: those of the refusal's own evidence, which the pass that refused has handed out
// (`specs/refusal_details/WhyLines.antt`), and what is found in the source beside it
// (`specs/refusal_details/Details.antt`). For that it stands on `expected_tokens` for what
// may stand at a place and `call_places` for calls.

mod calls;
mod characters;
mod expectations;
mod number_lines;
mod programs;
mod size_lines;
mod source_names;
mod type_lines;
mod why_lines;

ghost use Rattle.std.specs.Prelude.{IfOk};
ghost use Rattle.std.specs.String.{string_bytes};
ghost use Rattle.explanations.specs.refusal_details.Details.{Finds, FindsBeside, SaysDetails};

use crate::refusal_details::characters::character_line;
use crate::refusal_details::expectations::unexpected_lines;
use crate::refusal_details::programs::call_lines;
use crate::refusal_details::why_lines::why_lines;
use language::{Refusal, Rule, Why};
use std::alloc::{AllocError, Global};

/// What is said of a source's refusal beside its rule: lines, each with its end, or nothing.
pub fn details(alloc: Global, source: &str, refusal: Refusal) -> Result<String, AllocError>
    ensures said { IfOk result (λ lines. SaysDetails source.now refusal (string_bytes lines)) }
{
    let Some(place) = refusal.place else {
        return Ok(String::new(alloc));
    };
    let evidence = why_lines(alloc, source, refusal.why)?;
    let found = found_beside(alloc, source, refusal.rule, refusal.why, place.offset)?;
    format!(in alloc; "{evidence}{found}")
}

/// What is found in a source beside the evidence of a violation.
fn found_beside(
    alloc: Global,
    source: &str,
    rule: Rule,
    why: Why,
    at: u32,
) -> Result<String, AllocError>
    ensures { IfOk result (λ lines. FindsBeside source.now rule why at (string_bytes lines)) }
{
    match why {
        Why::Plain => found_lines(alloc, source, rule, at),
        Why::Index(_) | Why::Divisor(_) => call_lines(alloc, source, at),
        _ => Ok(String::new(alloc)),
    }
}

/// What is found in a source behind so many bytes, where rule and place are all that is known.
fn found_lines(alloc: Global, source: &str, rule: Rule, at: u32) -> Result<String, AllocError>
    ensures { IfOk result (λ lines. Finds source.now rule at (string_bytes lines)) }
{
    match rule {
        Rule::UnknownCharacter => String::from_str(alloc, character_line(at, source.as_bytes())),
        Rule::UnexpectedToken => unexpected_lines(alloc, at, source),
        _ => Ok(String::new(alloc)),
    }
}
