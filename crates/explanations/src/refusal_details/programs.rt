// What is found in the program that a source is.

ghost use Rattle.std.specs.Prelude.{IfOk};
ghost use Rattle.std.specs.String.{string_bytes};
ghost use Rattle.explanations.specs.refusal_details.Details.{SaysOfCalls};

use crate::refusal_details::calls::calls_line;
use std::alloc::{AllocError, Global};
use syntax::parse;

/// Where the procedure is called that the place behind so many bytes is in; nothing where the source is no program.
pub fn call_lines(alloc: Global, source: &str, at: u32) -> Result<String, AllocError>
    ensures { IfOk result (λ lines. SaysOfCalls source.now at (string_bytes lines)) }
{
    match parse(alloc, source) {
        Ok(program) => calls_line(alloc, at, &program),
        Err(refusal) => match refusal.place {
            Some(_) => Ok(String::new(alloc)),
            None => Err(AllocError),
        },
    }
}
