// A token that is unexpected.

ghost use Rattle.std.specs.Prelude.{◌≡◌, ◌++◌, map, IfOk, OnOk};
ghost use Rattle.std.specs.String.{string_bytes};
ghost use Rattle.explanations.specs.refusal_details.ExpectedLines.{SaysExpected, expected_line, more_names};
ghost use Rattle.explanations.specs.refusal_details.ExpectedLines.{SaysHabit, SaysUnexpected};

use crate::expected_tokens::expected;
use crate::habits::advice_at;
use std::alloc::{AllocError, Global};

/// What is said of the token that stands behind so many bytes of a text, or of its end there: what may stand there, and
/// what to write instead of a habit of C.
pub fn unexpected_lines(alloc: Global, at: u32, text: &str) -> Result<String, AllocError>
    ensures { IfOk result (λ lines. SaysUnexpected text.now at (string_bytes lines)) }
{
    let expected = expected_lines(alloc, at, text)?;
    let habit = habit_line(alloc, at, text)?;
    format!(in alloc; "{expected}{habit}")
}

/// What to write instead of a habit of C, where there is one.
fn habit_line(alloc: Global, at: u32, text: &str) -> Result<String, AllocError>
    ensures { IfOk result (λ line. SaysHabit text.now at (string_bytes line)) }
{
    match advice_at(alloc, text, at)? {
        Some(advice) => format!(in alloc; "  {advice} (docs/COOKBOOK.md)\n"),
        None => Ok(String::new(alloc)),
    }
}

/// What may stand there.
fn expected_lines(alloc: Global, at: u32, text: &str) -> Result<String, AllocError>
    ensures { IfOk result (λ lines. SaysExpected text.now at (string_bytes lines)) }
{
    match text.split_at_checked(at as usize) {
        Some((front, _)) => {
            let names = expected(alloc, front)?;
            expected_line(alloc, names.as_slice())
        }
        None => Ok(String::new(alloc)),
    }
}

/// The names of what may stand there, as a line.
fn expected_line(alloc: Global, names: &[&str]) -> Result<String, AllocError>
    ensures { IfOk result (λ line. string_bytes line ≡ expected_line (map (λ name. name.now) names.now)) }
{
    match names.split_first() {
        Some((first, others)) => {
            let mut line = format!(in alloc; "  expected: {first}")?;
            push_names(&mut line, others)?;
            line.push_str("\n")?;
            Ok(line)
        }
        None => Ok(String::new(alloc)),
    }
}

/// Puts names at the end of a text, each behind a comma.
fn push_names(text: &mut String, names: &[&str]) -> Result<(), AllocError>
    ensures { OnOk result (string_bytes text.new
        ≡ string_bytes text.old ++ more_names (map (λ name. name.now) names.now)) }
{
    for name in names {
        text.push_str(", ")?;
        text.push_str(name)?;
    }
    Ok(())
}
