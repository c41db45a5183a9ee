// Faults as objects of JSON.

ghost use Rattle.std.specs.Prelude.{◌≡◌, codes, IfOk, OnOk, Some};
ghost use Rattle.std.specs.String.{string_bytes};
ghost use Rattle.commands.specs.FaultText.{file_fault_text, rule_status};
ghost use Rattle.commands.specs.json.Faults.{argument_members, begun, eval_members, explained, fault_members};
ghost use Rattle.commands.specs.json.Faults.{image_members, lines_of_faults, name_members, out_of_memory, placed};
ghost use Rattle.commands.specs.json.Faults.{refused, refused_in, run_members, told, vectors_members};
ghost use Rattle.json_lines.specs.Lines.{line_of};
ghost use Rattle.json_lines.specs.Objects.{members_in};

use crate::answer::REFUSED;
use crate::fault::{Fault, FileFault};
use crate::json::subject::{JsonCommand, Subject};
use hepurita::RunFault;
use image::ImageFault;
use image_reports::source_places::Standing;
use image_reports::vectors::VectorsFault;
use json_lines::JsonObject;
use language::arguments::ArgumentFault;
use language::{Place, Refusal, Rule};
use source_eval::EvalFault;
use std::alloc::{AllocError, Global};

/// The exit statuses of what failed, of a want of memory and of a run that stopped otherwise than by ECALL.
const FAILED: u8 = 3;

const NO_MEMORY: u8 = 4;

const STOPPED: u8 = 5;

/// An object that says what came of a command.
pub fn begin(
    alloc: Global,
    command: JsonCommand,
    status: u8,
    outcome: &str,
) -> Result<JsonObject, AllocError>
    ensures { IfOk result (λ object. members_in object ≡ begun command status outcome.now) }
{
    let mut object = JsonObject::new(alloc);
    object.set_text("command", command.name())?;
    object.set_number("status", u64::from(status))?;
    object.set_text("result", outcome)?;
    Ok(object)
}

/// One that says which rule was broken.
fn refused(
    alloc: Global,
    command: JsonCommand,
    status: u8,
    code: &str,
    name: &str,
) -> Result<JsonObject, AllocError>
    ensures { IfOk result (λ object. members_in object ≡ refused command status code.now name.now) }
{
    let mut object = begin(alloc, command, status, "refused")?;
    object.set_text("code", code)?;
    object.set_text("name", name)?;
    Ok(object)
}

/// One that says that there is no memory.
fn out_of_memory(alloc: Global, command: JsonCommand) -> Result<JsonObject, AllocError>
    ensures { IfOk result (λ object. members_in object ≡ out_of_memory command) }
{
    refused(alloc, command, NO_MEMORY, "M1", "memory")
}

/// Says where in a file it is.
fn set_place(object: &mut JsonObject, path: &str, place: Place) -> Result<(), AllocError>
    ensures { OnOk result (members_in object.new ≡ placed path.now (Some place) (members_in object.old)) }
{
    object.set_text("file", path)?;
    object.set_number("line", u64::from(place.line))?;
    object.set_number("column", u64::from(place.column))
}

/// The exit status of a rule that is broken.
fn status_of(rule: Rule) -> u8
    ensures { result ≡ rule_status rule }
{
    if rule == Rule::OutOfMemory {
        NO_MEMORY
    } else {
        REFUSED
    }
}

/// The refusal of a source.
fn refused_in(
    alloc: Global,
    command: JsonCommand,
    path: &str,
    refusal: Refusal,
) -> Result<JsonObject, AllocError>
    ensures { IfOk result (λ object. members_in object ≡ refused_in command path.now refusal) }
{
    let rule = refusal.rule;
    let mut object = refused(alloc, command, status_of(rule), rule.code(), rule.name())?;
    if let Some(place) = refusal.place {
        set_place(&mut object, path, place)?;
    }
    Ok(object)
}

/// The same, with the lines that explain it.
fn explained_in(
    alloc: Global,
    command: JsonCommand,
    path: &str,
    refusal: Refusal,
    lines: &String,
) -> Result<JsonObject, AllocError>
    ensures { IfOk result (λ object.
        members_in object ≡ explained (string_bytes lines.now) (refused_in command path.now refusal)) }
{
    let mut object = refused_in(alloc, command, path, refusal)?;
    object.set_lines("explanation", lines.as_bytes())?;
    Ok(object)
}

/// What is wrong with arguments.
fn argument_object(
    alloc: Global,
    command: JsonCommand,
    fault: ArgumentFault,
) -> Result<JsonObject, AllocError>
    ensures { IfOk result (λ object. members_in object ≡ argument_members command fault) }
{
    let rule = fault.rule;
    let mut object = refused(alloc, command, REFUSED, rule.code(), rule.name())?;
    if let Some(index) = fault.index {
        object.set_number("argument", index as u64)?;
    }
    Ok(object)
}

/// What is wrong with an image.
fn image_object(
    alloc: Global,
    subject: Subject<'_>,
    fault: ImageFault,
) -> Result<JsonObject, AllocError>
    ensures { IfOk result (λ object. members_in object ≡ image_members subject.entry fault) }
{
    match fault {
        ImageFault::Field { rule, offset } => {
            let mut object = refused(alloc, subject.command, REFUSED, rule.code(), rule.name())?;
            object.set_text("file", subject.file)?;
            object.set_number("offset", offset as u64)?;
            Ok(object)
        }
        ImageFault::Memory => out_of_memory(alloc, subject.command),
    }
}

/// Why a run gave nothing.
fn run_object(
    alloc: Global,
    subject: Subject<'_>,
    fault: RunFault,
) -> Result<JsonObject, AllocError>
    ensures { IfOk result (λ object. members_in object ≡ run_members subject.entry fault) }
{
    match fault {
        RunFault::Argument { rule, index } => {
            argument_object(alloc, subject.command, ArgumentFault { rule, index })
        }
        RunFault::Memory => out_of_memory(alloc, subject.command),
        RunFault::Stopped(stop) => {
            let mut object = begin(alloc, subject.command, STOPPED, "stopped")?;
            object.set_text("stop", stop.name())?;
            Ok(object)
        }
    }
}

/// Why a source gave nothing.
fn eval_object(
    alloc: Global,
    subject: Subject<'_>,
    fault: EvalFault,
) -> Result<JsonObject, AllocError>
    ensures { IfOk result (λ object. members_in object ≡ eval_members subject.entry fault) }
{
    match fault {
        EvalFault::Argument(fault) => argument_object(alloc, subject.command, fault),
        EvalFault::NoMeaning(place) => {
            let mut object = refused(alloc, subject.command, REFUSED, "E1", "no meaning")?;
            set_place(&mut object, subject.file, place)?;
            Ok(object)
        }
        EvalFault::Budget => refused(alloc, subject.command, REFUSED, "E2", "budget"),
        EvalFault::Memory => out_of_memory(alloc, subject.command),
    }
}

/// What is wrong with a file of vectors.
fn vectors_object(
    alloc: Global,
    subject: Subject<'_>,
    fault: VectorsFault,
) -> Result<JsonObject, AllocError>
    ensures { IfOk result (λ object. members_in object ≡ vectors_members subject.entry fault) }
{
    match fault {
        VectorsFault::Line { line } => {
            let mut object = refused(alloc, subject.command, REFUSED, "V1", "line form")?;
            object.set_text("file", subject.list)?;
            object.set_number("line", line as u64)?;
            Ok(object)
        }
        VectorsFault::TooLong => {
            let mut object = refused(alloc, subject.command, REFUSED, "V2", "text too long")?;
            object.set_text("file", subject.list)?;
            Ok(object)
        }
        VectorsFault::Memory => out_of_memory(alloc, subject.command),
    }
}

/// What a text tells.
fn told(
    alloc: Global,
    command: JsonCommand,
    status: u8,
    outcome: &str,
    message: &str,
) -> Result<JsonObject, AllocError>
    ensures { IfOk result (λ object. members_in object ≡ told command status outcome.now message.now) }
{
    let mut object = begin(alloc, command, status, outcome)?;
    object.set_text("message", message)?;
    Ok(object)
}

/// Why a file failed.
fn file_object(
    alloc: Global,
    command: JsonCommand,
    fault: FileFault<'_>,
) -> Result<JsonObject, AllocError>
    ensures { IfOk result (λ object.
        members_in object ≡ told command 3 (codes "failed") (file_fault_text fault.entry)) }
{
    let message = match fault {
        FileFault::CannotRead(path) => format!(in alloc; "cannot read {path}")?,
        FileFault::CannotWrite(path) => format!(in alloc; "cannot write {path}")?,
        FileFault::NotUtf8(path) => format!(in alloc; "not UTF-8 {path}")?,
        FileFault::IsElf(path) => {
            format!(in alloc; "an ELF file, which elf certify takes: {path}")?
        }
    };
    told(alloc, command, FAILED, "failed", message.as_str())
}

/// The place where an export has a name that is taken.
fn name_object(
    alloc: Global,
    subject: Subject<'_>,
    standing: Standing<'_>,
) -> Result<JsonObject, AllocError>
    ensures { IfOk result (λ object. members_in object ≡ name_members subject.entry standing.entry) }
{
    let path = match standing.library {
        Some(path) => path,
        None => subject.file,
    };
    let mut object = refused(alloc, subject.command, REFUSED, "F1", "name")?;
    set_place(&mut object, path, standing.place)?;
    Ok(object)
}

/// A fault of a command, as a line.
pub fn line_of_fault(
    alloc: Global,
    subject: Subject<'_>,
    fault: &Fault<'_>,
) -> Result<Vec<u8>, AllocError>
    ensures { IfOk result (λ line. line.items ≡ line_of (fault_members subject.entry fault.now)) }
{
    let object = fault_object(alloc, subject, fault)?;
    object.into_line()
}

/// A line for each of faults, in their order.
pub fn lines_of_faults(
    alloc: Global,
    subject: Subject<'_>,
    faults: &[Fault<'_>],
) -> Result<Vec<u8>, AllocError>
    ensures { IfOk result (λ text. text.items ≡ lines_of_faults subject.entry faults.now) }
{
    let mut text = Vec::new(alloc);
    for fault in faults {
        let line = line_of_fault(alloc, subject, fault)?;
        text.extend_from_slice(line.as_slice())?;
    }
    Ok(text)
}

/// A fault of a command as an object.
fn fault_object(
    alloc: Global,
    subject: Subject<'_>,
    fault: &Fault<'_>,
) -> Result<JsonObject, AllocError>
    ensures { IfOk result (λ object. members_in object ≡ fault_members subject.entry fault.now) }
{
    let (command, file) = (subject.command, subject.file);
    match fault {
        Fault::Text(refusal) => refused_in(alloc, command, file, *refusal),
        Fault::Explained(refusal, lines) => explained_in(alloc, command, file, *refusal, lines),
        Fault::InLibrary(path, refusal) => refused_in(alloc, command, path, *refusal),
        Fault::ExplainedInLibrary(path, refusal, lines) => {
            explained_in(alloc, command, path, *refusal, lines)
        }
        Fault::Image(fault) => image_object(alloc, subject, *fault),
        Fault::Run(fault) => run_object(alloc, subject, *fault),
        Fault::Eval(fault) => eval_object(alloc, subject, *fault),
        Fault::Vectors(fault) => vectors_object(alloc, subject, *fault),
        Fault::Name(standing) => name_object(alloc, subject, *standing),
        Fault::File(fault) => file_object(alloc, command, *fault),
        Fault::Plan(_) | Fault::Harts(_) | Fault::Code(_) | Fault::Elf(_) | Fault::Unmet { .. } => {
            let message = format!(in alloc; "{fault}")?;
            told(alloc, command, fault.status(), "refused", message.as_str())
        }
    }
}
