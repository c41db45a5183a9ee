// Answers as lines of JSON.

ghost use Rattle.std.specs.Prelude.{◌≡◌, ◌≤◌, IfOk};
ghost use Rattle.commands.specs.Violations.{listing_status};
ghost use Rattle.commands.specs.json.Answers.{accepted_members, function_written, image_written, lines_members};
ghost use Rattle.commands.specs.json.Answers.{listed_in_json};
ghost use Rattle.json_lines.specs.Lines.{line_of};
ghost use Rattle.json_lines.specs.Objects.{members_in};

use crate::answer::{Answer, DONE, REFUSED};
use crate::fault::Fault;
use crate::json::faults::{begin, lines_of_faults};
use crate::json::subject::{JsonCommand, Subject};
use json_lines::JsonObject;
use std::alloc::{AllocError, Global};

/// An object as an answer.
fn answer_of(object: JsonObject, status: u8) -> Result<Answer, AllocError>
    requires { status ≤ 5 }
    ensures text { IfOk result (λ answer. answer.text.items ≡ line_of (members_in object)) }
    ensures status { IfOk result (λ answer. answer.status ≡ status) }
{
    let text = object.into_line()?;
    Ok(Answer { text, status })
}

/// A source is accepted.
pub fn accepted(alloc: Global) -> Result<Answer, AllocError>
    ensures text { IfOk result (λ answer. answer.text.items ≡ line_of accepted_members) }
    ensures status { IfOk result (λ answer. answer.status ≡ 0) }
{
    let object = begin(alloc, JsonCommand::Check, DONE, "accepted")?;
    answer_of(object, DONE)
}

/// A source violates so much: a line for each violation; none, and it is accepted.
pub fn listed(
    alloc: Global,
    subject: Subject<'_>,
    found: &[Fault<'_>],
) -> Result<Answer, AllocError>
    ensures text { IfOk result (λ answer. answer.text.items ≡ listed_in_json subject.entry found.now) }
    ensures status { IfOk result (λ answer. answer.status ≡ listing_status found.now) }
{
    if found.is_empty() {
        return accepted(alloc);
    }
    let text = lines_of_faults(alloc, subject, found)?;
    Ok(Answer {
        text,
        status: REFUSED,
    })
}

/// An image is written.
pub fn image_written(alloc: Global, image: &str) -> Result<Answer, AllocError>
    ensures text { IfOk result (λ answer. answer.text.items ≡ line_of (image_written image.now)) }
    ensures status { IfOk result (λ answer. answer.status ≡ 0) }
{
    let mut object = begin(alloc, JsonCommand::Build, DONE, "written")?;
    object.set_text("image", image)?;
    answer_of(object, DONE)
}

/// The texts of a function are.
pub fn function_written(alloc: Global, assembler: &str, header: &str) -> Result<Answer, AllocError>
    ensures text { IfOk result (λ answer. answer.text.items ≡ line_of (function_written assembler.now header.now)) }
    ensures status { IfOk result (λ answer. answer.status ≡ 0) }
{
    let mut object = begin(alloc, JsonCommand::Function, DONE, "written")?;
    object.set_text("assembler", assembler)?;
    object.set_text("header", header)?;
    answer_of(object, DONE)
}

/// The lines of what is answered as a text.
pub fn in_lines(alloc: Global, command: JsonCommand, answer: &Answer) -> Result<Answer, AllocError>
    ensures text { IfOk result (λ line. line.text.items
        ≡ line_of (lines_members command answer.now.status answer.now.text.items)) }
    ensures status { IfOk result (λ line. line.status ≡ answer.now.status) }
{
    let status = answer.status;
    let mut object = begin(alloc, command, status, "done")?;
    object.set_lines("lines", answer.text.as_slice())?;
    answer_of(object, status)
}
