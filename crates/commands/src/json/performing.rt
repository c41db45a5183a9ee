// A request, done and answered in JSON.

ghost use Rattle.std.specs.Prelude.{◌≡◌, ◌≤◌, Err, IsTrue, IfOk, OnErr};
ghost use Rattle.commands.specs.Answered.{IsCounted};
ghost use Rattle.commands.specs.Below.{collected};
ghost use Rattle.commands.specs.Requests.{EndsByStatus};
ghost use Rattle.command_line.specs.declared.options.Format.TheVariants as formats;
ghost use Rattle.commands.specs.json.Performed.{GivesInJson, IsLineOf, PerformsAs, PrintsLine};
ghost use Rattle.commands.specs.json.Printed.{CountsLine, CountsLineOf, GivesLines, PrintsLineOf};
ghost use Rattle.commands.specs.declared.fault.Fault.{Fault};

use crate::answer::Answer;
use crate::certifying::certify_image;
use crate::evaluating::evaluate_text;
use crate::fault::{Fault, FileFault};
use crate::files::Files;
use crate::function_files::write_function;
use crate::images::pair_image;
use crate::json::answers::{accepted, function_written, image_written, in_lines, listed};
use crate::json::faults::line_of_fault;
use crate::json::subject::{JsonCommand, Subject};
use crate::measuring::measure_file;
use crate::performing::{STANDARD_OUTPUT, perform_in_text, report};
use crate::texts::{build_image, check_text};
use crate::trying::try_file;
use crate::violations::told_violations;
use command_line::{CompileOptions, LinkOptions, Request};
use language::Profile;
use std::alloc::{AllocError, Global};
use streams::{Sink, put_all};

/// The exit status where there is no memory.
const NO_MEMORY: u8 = 4;

/// Does what is asked for, prints one line of JSON that says what came of it, and answers the exit status. Lines of
/// progress go to `err` before that. A request that has no answer in JSON is answered in text.
pub fn perform_in_json<F: Files, O: Sink, E: Sink>(
    alloc: Global,
    request: Request<'_>,
    files: &mut F,
    out: &mut O,
    err: &mut E,
) -> u8
    ensures performed { IsTrue F.TELLS → IsTrue O.TELLS → IsTrue E.TELLS
        → PerformsAs formats.Json request.entry (F.store files.old) (F.store files.new)
        (collected (O.taken out.old) (O.failures out.old)) (collected (O.taken out.new) (O.failures out.new))
        (collected (E.taken err.old) (E.failures err.old)) (collected (E.taken err.new) (E.failures err.new)) result }
    ensures known { result ≤ 5 }
    ensures calm { result ≡ 0 → O.failures out.new ≡ O.failures out.old }
    ensures counted { EndsByStatus (F.store files.old).failures (F.store files.new).failures
        (O.failures out.old) (O.failures out.new) result }
{
    match request {
        Request::Check {
            libraries,
            file,
            profile,
            explain,
        } => {
            let given = check_in_json(alloc, libraries, file, profile, explain, files);
            tell(
                alloc,
                Subject::of(JsonCommand::Check, file),
                given,
                out,
                err,
            )
        }
        Request::CheckAll {
            libraries,
            file,
            profile,
            explain,
        } => {
            let given = all_in_json(alloc, libraries, file, profile, explain, files);
            tell(
                alloc,
                Subject::of(JsonCommand::Check, file),
                given,
                out,
                err,
            )
        }
        Request::Build {
            libraries,
            file,
            image,
            options,
        } => {
            let given = build_in_json(alloc, libraries, file, image, options, files);
            tell(
                alloc,
                Subject::of(JsonCommand::Build, file),
                given,
                out,
                err,
            )
        }
        Request::Function {
            libraries,
            file,
            assembler,
            header,
            options,
        } => {
            let given = function_in_json(
                alloc, libraries, file, assembler, header, &options, files,
            );
            tell(
                alloc,
                Subject::of(JsonCommand::Function, file),
                given,
                out,
                err,
            )
        }
        Request::Stat {
            libraries,
            file,
            profile,
            optimisation,
        } => {
            let found = measure_file(alloc, libraries, file, profile, optimisation, files);
            let given = lines_in_json(alloc, JsonCommand::Stat, found);
            tell(alloc, Subject::of(JsonCommand::Stat, file), given, out, err)
        }
        Request::Eval {
            libraries,
            file,
            arguments,
            explain,
        } => {
            let found = evaluate_text(alloc, libraries, file, arguments, explain, files);
            let given = lines_in_json(alloc, JsonCommand::Eval, found);
            tell(alloc, Subject::of(JsonCommand::Eval, file), given, out, err)
        }
        Request::Pair {
            image,
            arguments,
            options,
        } => {
            let found = pair_image(alloc, image, arguments, options, files, err);
            let given = lines_in_json(alloc, JsonCommand::Pair, found);
            tell(
                alloc,
                Subject::of(JsonCommand::Pair, image),
                given,
                out,
                err,
            )
        }
        Request::Certify {
            image,
            arguments,
            options,
        } => {
            let found = certify_image(alloc, image, arguments, options, files, err);
            let given = lines_in_json(alloc, JsonCommand::Certify, found);
            tell(
                alloc,
                Subject::of(JsonCommand::Certify, image),
                given,
                out,
                err,
            )
        }
        Request::Vectors {
            libraries,
            file,
            vectors,
            profile,
            optimisation,
        } => {
            let found = try_file(
                alloc,
                libraries,
                file,
                vectors,
                profile,
                optimisation,
                files,
            );
            let given = lines_in_json(alloc, JsonCommand::Vectors, found);
            let subject = Subject {
                command: JsonCommand::Vectors,
                file,
                list: vectors,
            };
            tell(alloc, subject, given, out, err)
        }
        Request::Run { .. }
        | Request::Leak { .. }
        | Request::Picture { .. }
        | Request::List { .. }
        | Request::Wrap { .. }
        | Request::Harts { .. }
        | Request::Explain { .. }
        | Request::ElfCertify { .. }
        | Request::ElfLeak { .. }
        | Request::ElfWitness { .. } => perform_in_text(alloc, request, files, out, err),
    }
}

/// Judges a source.
fn check_in_json<'a, F: Files>(
    alloc: Global,
    libraries: &'a [&'a str],
    file: &'a str,
    profile: Profile,
    explain: bool,
    files: &mut F,
) -> Result<Answer, Fault<'a>>
    ensures gives { IsTrue F.TELLS
        → GivesInJson (Request.Check libraries.entry file.entry profile explain) (F.store files.old).contents
        (F.store files.new).contents result }
    ensures counted { IsCounted result (F.store files.old).failures (F.store files.new).failures }
{
    check_text(alloc, libraries, file, profile, explain, files)?;
    Ok(accepted(alloc)?)
}

/// Judges a source, with all that it violates.
fn all_in_json<'a, F: Files>(
    alloc: Global,
    libraries: &'a [&'a str],
    file: &'a str,
    profile: Profile,
    explain: bool,
    files: &mut F,
) -> Result<Answer, Fault<'a>>
    ensures gives { IsTrue F.TELLS
        → GivesInJson (Request.CheckAll libraries.entry file.entry profile explain) (F.store files.old).contents
        (F.store files.new).contents result }
    ensures counted { IsCounted result (F.store files.old).failures (F.store files.new).failures }
{
    let found = told_violations(alloc, libraries, file, profile, explain, files)?;
    let subject = Subject::of(JsonCommand::Check, file);
    Ok(listed(alloc, subject, found.as_slice())?)
}

/// Compiles a source to an image. The line is made before that, so that no image is written where there is no memory
/// for the line.
fn build_in_json<'a, F: Files>(
    alloc: Global,
    libraries: &'a [&'a str],
    file: &'a str,
    image: &'a str,
    options: CompileOptions,
    files: &mut F,
) -> Result<Answer, Fault<'a>>
    ensures gives { IsTrue F.TELLS
        → GivesInJson (Request.Build libraries.entry file.entry image.entry options) (F.store files.old).contents
        (F.store files.new).contents result }
    ensures counted { IsCounted result (F.store files.old).failures (F.store files.new).failures }
{
    let line = image_written(alloc, image)?;
    build_image(alloc, libraries, file, image, options, files)?;
    Ok(line)
}

/// The same to a function for C.
fn function_in_json<'a, F: Files>(
    alloc: Global,
    libraries: &'a [&'a str],
    file: &'a str,
    assembler: &'a str,
    header: &'a str,
    options: &LinkOptions<'_>,
    files: &mut F,
) -> Result<Answer, Fault<'a>>
    ensures gives { IsTrue F.TELLS
        → GivesInJson (Request.Function libraries.entry file.entry assembler.entry header.entry options.now)
        (F.store files.old).contents (F.store files.new).contents result }
    ensures counted { IsCounted result (F.store files.old).failures (F.store files.new).failures }
{
    let line = function_written(alloc, assembler, header)?;
    write_function(alloc, libraries, file, assembler, header, options, files)?;
    Ok(line)
}

/// The lines of an answer in text.
fn lines_in_json<'a>(
    alloc: Global,
    command: JsonCommand,
    found: Result<Answer, Fault<'a>>,
) -> Result<Answer, Fault<'a>>
    ensures { GivesLines command found.entry result }
{
    let answer = found?;
    Ok(in_lines(alloc, command, &answer)?)
}

/// Prints the line that says what came of a request, and answers the exit status.
fn tell<O: Sink, E: Sink>(
    alloc: Global,
    subject: Subject<'_>,
    given: Result<Answer, Fault<'_>>,
    out: &mut O,
    err: &mut E,
) -> u8
    ensures told { IsTrue O.TELLS → IsTrue E.TELLS
        → PrintsLineOf subject.entry given.entry
        (collected (O.taken out.old) (O.failures out.old)) (collected (O.taken out.new) (O.failures out.new))
        (collected (E.taken err.old) (E.failures err.old)) (collected (E.taken err.new) (E.failures err.new)) result }
    ensures known { result ≤ 5 }
    ensures counted { CountsLineOf given.entry (O.failures out.old) (O.failures out.new) result }
{
    match line_of(alloc, subject, given) {
        Ok(answer) => print_line(alloc, answer.text.as_slice(), answer.status, out, err),
        Err(_) => {
            let line = subject.command.no_memory_line();
            print_line(alloc, line.as_bytes(), NO_MEMORY, out, err)
        }
    }
}

/// The line that says what came of a request, and the exit status.
fn line_of<'a>(
    alloc: Global,
    subject: Subject<'_>,
    given: Result<Answer, Fault<'a>>,
) -> Result<Answer, AllocError>
    ensures said { IfOk result (λ line. IsLineOf subject.entry given.entry line.text.items line.status) }
    ensures memory { OnErr result ((fault : Fault) × (given.entry ≡ Err fault)) }
{
    match given {
        Ok(answer) => Ok(answer),
        Err(fault) => {
            let text = line_of_fault(alloc, subject, &fault)?;
            Ok(Answer {
                text,
                status: fault.status(),
            })
        }
    }
}

/// Prints a line, and answers the exit status. Where standard output fails, that is told on standard error.
fn print_line<O: Sink, E: Sink>(
    alloc: Global,
    line: &[u8],
    status: u8,
    out: &mut O,
    err: &mut E,
) -> u8
    requires { status ≤ 5 }
    ensures printed { IsTrue O.TELLS → IsTrue E.TELLS
        → PrintsLine line.now status
        (collected (O.taken out.old) (O.failures out.old)) (collected (O.taken out.new) (O.failures out.new))
        (collected (E.taken err.old) (E.failures err.old)) (collected (E.taken err.new) (E.failures err.new)) result }
    ensures known { result ≤ 5 }
    ensures counted { CountsLine status (O.failures out.old) (O.failures out.new) result }
{
    match put_all(out, line) {
        Ok(()) => status,
        Err(_) => {
            let fault = Fault::File(FileFault::CannotWrite(STANDARD_OUTPUT));
            report(alloc, &fault, err)
        }
    }
}
