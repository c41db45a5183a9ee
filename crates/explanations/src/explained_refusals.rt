// What is printed below the line of a source's refusal where an author asks why: the line of the source with the place
// marked, what there is at the place, and the violated rule with its usual cause and its cure.
//
// It promises that the lines are those of this place and of this rule (`specs/explained_refusals/Explained.antt`). It
// stands on `source_excerpts` for the line, on `refusal_details` for what there is at the place and on the
// table of this crate for the rules, of which each has a row there.

ghost use Rattle.std.specs.Prelude.{◌≡◌, Some, IfOk, IfErr};
ghost use Rattle.std.specs.String.{string_bytes};
ghost use Rattle.explanations.specs.Table.{text_of};
ghost use Rattle.explanations.specs.explained_refusals.Explained.{place_lines, Explains};
ghost use Rattle.explanations.specs.Below.{code_of, IsWantOfMemory};

use crate::refusal_details::details;
use crate::source_excerpts::excerpt;
use crate::{Explanation, explanation};
use language::{Place, Refusal, Rule};
use std::alloc::{AllocError, Global};

/// The lines that explain a refusal of a source, without the last one's end: the marked place, where the refusal has
/// one, what there is at it, and the rule. It fails only when out of memory.
pub fn explain_refusal(alloc: Global, source: &str, refusal: Refusal) -> Result<String, Refusal>
    ensures said { IfOk result (λ lines. Explains source.now refusal (string_bytes lines)) }
    ensures memory { IfErr result (λ fault. IsWantOfMemory fault.rule fault.place) }
{
    Ok(lines_below(alloc, source, refusal)?)
}

/// The same lines.
fn lines_below(alloc: Global, source: &str, refusal: Refusal) -> Result<String, AllocError>
    ensures { IfOk result (λ lines. Explains source.now refusal (string_bytes lines)) }
{
    let lines = place_lines(alloc, source, refusal.place)?;
    let details = details(alloc, source, refusal)?;
    let rule = row_of(refusal.rule).rule;
    format!(in alloc; "{lines}{details}{rule}")
}

/// The line of a source at a place, marked; nothing where there is no place.
fn place_lines(alloc: Global, source: &str, place: Option<Place>) -> Result<String, AllocError>
    ensures { IfOk result (λ lines. string_bytes lines ≡ place_lines source.now place) }
{
    match place {
        Some(place) => excerpt(alloc, source, place),
        None => Ok(String::new(alloc)),
    }
}

/// The table's row of a rule.
fn row_of(rule: Rule) -> Explanation
    ensures { text_of (code_of rule) ≡ Some result.rule.now }
{
    match explanation(rule.code()) {
        Some(row) => row,
        None => unreachable!(),
    }
}
