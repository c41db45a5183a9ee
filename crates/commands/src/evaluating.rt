// What is done with a text and arguments: it is worked out what the text means on them.

ghost use Rattle.std.specs.Prelude.{◌≡◌, IsTrue};
ghost use Rattle.commands.specs.Answered.{Finds, IsRead};
ghost use Rattle.commands.specs.Meanings.{evaluation_budget};

use crate::answer::Answer;
use crate::fault::Fault;
use crate::files::Files;
use crate::outcome;
use crate::sources::{joined_text, refused_in};
use command_line::Request;
use hepurita::{accepted_sources_are_evaluated, judge, read_args};
use source_eval::eval;
use std::alloc::Global;

/// How many nodes `eval` evaluates at most.
const EVALUATION_BUDGET: u64 = 1 << 32;

/// The constant is the number that the definitions state.
pub fn budget_is_as_stated()
    ensures nodes { EVALUATION_BUDGET ≡ evaluation_budget }
{}

/// What the accepted source of libraries and a file means on arguments, as lines. It is accepted for an observer of
/// profile 1, and the budget suffices for each source that is. A refusal is explained where that is asked for.
pub fn evaluate_text<'a, F: Files>(
    alloc: Global,
    libraries: &'a [&'a str],
    file: &'a str,
    arguments: &'a [&'a str],
    explain: bool,
    files: &mut F,
) -> Result<Answer, Fault<'a>>
    ensures finds { IsTrue F.TELLS
        → Finds (Request.Eval libraries.entry file.entry arguments.entry explain) (F.store files.old).contents result }
    ensures read { IsRead result (F.store files.old) (F.store files.new) }
{
    accepted_sources_are_evaluated();
    let joined = joined_text(alloc, libraries, file, files)?;
    let text = joined.text.as_str();
    let accepted = match judge(alloc, text) {
        Ok(accepted) => accepted,
        Err(refusal) => {
            let read = joined.libraries.as_slice();
            return Err(refused_in(alloc, text, read, refusal, explain));
        }
    };
    let params = accepted.params.as_slice();
    let args = read_args(alloc, params, arguments)?;
    let outcome = eval(alloc, &accepted.program, &args, EVALUATION_BUDGET)?;
    let lines = outcome::text_of(alloc, params, &outcome)?;
    Ok(Answer::of_text(lines))
}
