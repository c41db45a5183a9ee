// A request, done.

ghost use Rattle.std.specs.Prelude.{◌≡◌, ◌≤◌, ◌⊎◌, ℕ, map, IsTrue, OnOk, OnErr};
ghost use Rattle.commands.specs.Answered.{Does, Finds, IsEnded, IsRead, Prints};
ghost use Rattle.commands.specs.Commanded.{Commands, Says};
ghost use Rattle.commands.specs.Contents.{Contents, Store};
ghost use Rattle.commands.specs.FaultText.{fault_status};
ghost use Rattle.commands.specs.Progress.{RequestTells};
ghost use Rattle.commands.specs.Requests.{Reports, Performs, EndsByStatus};
ghost use Rattle.commands.specs.Below.{collected, HasLines, one_more, Reaches};
ghost use Rattle.commands.specs.json.Performed.{PerformsAs};

use crate::answer::{Answer, DONE};
use crate::certifying::certify_image;
use crate::elf_certifying::certify_elf;
use crate::elf_listing::leak_elf;
use crate::elf_witnessing::witness_elf;
use crate::evaluating::evaluate_text;
use crate::fault::{Fault, FileFault};
use crate::files::Files;
use crate::foreign_code::wrap_code;
use crate::function_files::write_function;
use crate::images::{leak_image, list_image, pair_image, run_image};
use crate::json::perform_in_json;
use crate::measuring::measure_file;
use crate::overwriting::overwritten;
use crate::picturing::picture_image;
use crate::side_by_side::run_file;
use crate::texts::{build_image, check_text};
use crate::trying::try_file;
use crate::violations::check_all;
use command_line::{Format, FormattedRequest, NoRequest, Request, parse};
use explanations::Explanation;
use input_files::harts_file::FileJob;
use input_files::wrapping::Asked;
use language::Refusal;
use std::alloc::Global;
use streams::{Sink, put_all};

/// The path that stands for standard output.
pub const STANDARD_OUTPUT: &str = "-";

const OUT_OF_MEMORY: &str = "refused: M1: memory\n";

/// Does what the words ask for, of which the first is the program's own name, or says why they ask for nothing, or for
/// what would write over a file that is read; and answers the exit status: 0 done, 1 refused by a rule, not certified,
/// 2 the command line is wrong, 3 a file failed, 4 memory, 5 stopped otherwise than by ECALL.
pub fn command<'a, F: Files, O: Sink, E: Sink>(
    alloc: Global,
    words: &'a [&'a str],
    files: &mut F,
    out: &mut O,
    err: &mut E,
) -> u8
    ensures commanded { IsTrue F.TELLS → IsTrue O.TELLS → IsTrue E.TELLS
        → Commands (map (λ word. word.now) words.now) (F.store files.old) (F.store files.new)
        (collected (O.taken out.old) (O.failures out.old)) (collected (O.taken out.new) (O.failures out.new))
        (collected (E.taken err.old) (E.failures err.old)) (collected (E.taken err.new) (E.failures err.new)) result }
    ensures known { result ≤ 5 }
    ensures calm { result ≡ 0 → O.failures out.new ≡ O.failures out.old }
    ensures counted { EndsByStatus (F.store files.old).failures (F.store files.new).failures (O.failures out.old)
        (O.failures out.new) result }
{
    let mut matched = None;
    match parse(alloc, words, &mut matched) {
        Ok(asked) => match overwritten(files, &asked.request) {
            Some(path) => explain(alloc, would_be_lost(alloc, path), out, err),
            None => perform(alloc, asked, files, out, err),
        },
        Err(said) => explain(alloc, said, out, err),
    }
}

/// What is said where a file that is read, or another that is written, would be lost.
fn would_be_lost(alloc: Global, path: &str) -> NoRequest {
    match format!(in alloc; "error: {path} is another path of a file that would be lost\n") {
        Ok(text) => NoRequest::Wrong(text),
        Err(_) => NoRequest::Memory,
    }
}

/// Does what is asked for and prints what answers it, or why it is not done, in the format that is asked for, and
/// answers the exit status. Lines of progress and of steps go to `err` before that.
pub fn perform<F: Files, O: Sink, E: Sink>(
    alloc: Global,
    asked: FormattedRequest<'_>,
    files: &mut F,
    out: &mut O,
    err: &mut E,
) -> u8
    ensures performed { IsTrue F.TELLS → IsTrue O.TELLS → IsTrue E.TELLS
        → PerformsAs asked.entry.format asked.entry.request (F.store files.old) (F.store files.new)
        (collected (O.taken out.old) (O.failures out.old)) (collected (O.taken out.new) (O.failures out.new))
        (collected (E.taken err.old) (E.failures err.old)) (collected (E.taken err.new) (E.failures err.new)) result }
    ensures known { result ≤ 5 }
    ensures calm { result ≡ 0 → O.failures out.new ≡ O.failures out.old }
    ensures counted { EndsByStatus (F.store files.old).failures (F.store files.new).failures
        (O.failures out.old) (O.failures out.new) result }
{
    let FormattedRequest { request, format } = asked;
    match format {
        Format::Text => perform_in_text(alloc, request, files, out, err),
        Format::Json => perform_in_json(alloc, request, files, out, err),
    }
}

/// The same in text.
pub fn perform_in_text<F: Files, O: Sink, E: Sink>(
    alloc: Global,
    request: Request<'_>,
    files: &mut F,
    out: &mut O,
    err: &mut E,
) -> u8
    ensures performed { IsTrue F.TELLS → IsTrue O.TELLS → IsTrue E.TELLS
        → Performs request.entry (F.store files.old) (F.store files.new)
        (collected (O.taken out.old) (O.failures out.old)) (collected (O.taken out.new) (O.failures out.new))
        (collected (E.taken err.old) (E.failures err.old)) (collected (E.taken err.new) (E.failures err.new)) result }
    ensures known { result ≤ 5 }
    ensures calm { result ≡ 0 → O.failures out.new ≡ O.failures out.old }
    ensures counted { EndsByStatus (F.store files.old).failures (F.store files.new).failures
        (O.failures out.old) (O.failures out.new) result }
{
    let mut jobs = Vec::new(alloc);
    match answer(alloc, request, files, &mut jobs, out, err) {
        Ok(status) => status,
        Err(fault) => report(alloc, &fault, err),
    }
}

/// Prints the fault's line, and answers its exit status. Where there is no memory for the line, the
/// fault is out of memory. That the line could not be printed is nowhere to be said.
pub fn report<E: Sink>(alloc: Global, fault: &Fault<'_>, err: &mut E) -> u8
    ensures reported { IsTrue E.TELLS → Reports fault.now (collected (E.taken err.old) (E.failures err.old))
        (collected (E.taken err.new) (E.failures err.new)) result }
    ensures status { (result ≡ fault_status fault.now) ⊎ (result ≡ 4) }
    ensures counted { (E.failures err.new ≡ E.failures err.old) ⊎ (E.failures err.new ≡ one_more (E.failures err.old)) }
    ensures low { 1 ≤ result }
    ensures high { result ≤ 5 }
{
    match format!(in alloc; "{fault}\n") {
        Ok(line) => {
            let _ = put_all(err, line.as_bytes());
            fault.status()
        }
        Err(_) => {
            let _ = put_all(err, OUT_OF_MEMORY.as_bytes());
            4
        }
    }
}

/// Prints what is wrong with the command line, or the help or the version that was asked for.
fn explain<O: Sink, E: Sink>(alloc: Global, said: NoRequest, out: &mut O, err: &mut E) -> u8
    ensures told { IsTrue O.TELLS → IsTrue E.TELLS
        → Says (collected (O.taken out.old) (O.failures out.old)) (collected (O.taken out.new) (O.failures out.new))
        (collected (E.taken err.old) (E.failures err.old)) (collected (E.taken err.new) (E.failures err.new)) result }
    ensures known { result ≤ 5 }
    ensures calm { result ≡ 0 → O.failures out.new ≡ O.failures out.old }
    ensures counted { (files : ℕ) → EndsByStatus files files (O.failures out.old) (O.failures out.new) result }
{
    match said {
        NoRequest::Memory => report(alloc, &Fault::Text(Refusal::memory()), err),
        NoRequest::Wrong(text) => {
            let _ = put_all(err, text.as_bytes());
            2
        }
        NoRequest::Help(text) => match print(out, Ok(Answer::of_text(text))) {
            Ok(status) => status,
            Err(fault) => report(alloc, &fault, err),
        },
    }
}

/// Does what is asked for, prints what answers it, and answers the exit status. The jobs of harts are put into `jobs`,
/// since a fault names their paths.
fn answer<'a, F: Files, O: Sink, E: Sink>(
    alloc: Global,
    request: Request<'a>,
    files: &mut F,
    jobs: &'a mut Vec<FileJob>,
    out: &mut O,
    err: &mut E,
) -> Result<u8, Fault<'a>>
    ensures does { IsTrue F.TELLS → IsTrue O.TELLS
        → Does request.entry (F.store files.old) (F.store files.new)
        (collected (O.taken out.old) (O.failures out.old)) (collected (O.taken out.new) (O.failures out.new)) result }
    ensures told { IsTrue F.TELLS → IsTrue E.TELLS
        → OnOk result (RequestTells HasLines request.entry (F.store files.old).contents
        (collected (E.taken err.old) (E.failures err.old)) (collected (E.taken err.new) (E.failures err.new))) }
    ensures part { IsTrue F.TELLS → IsTrue E.TELLS → OnErr result ((err.new ≡ err.old)
        ⊎ RequestTells Reaches request.entry (F.store files.old).contents
        (collected (E.taken err.old) (E.failures err.old)) (collected (E.taken err.new) (E.failures err.new))) }
    ensures ended { IsEnded result (F.store files.old).failures (F.store files.new).failures
        (O.failures out.old) (O.failures out.new) }
{
    match request {
        Request::Check {
            libraries,
            file,
            profile,
            explain,
        } => print(
            out,
            check_text(alloc, libraries, file, profile, explain, files),
        ),
        Request::CheckAll {
            libraries,
            file,
            profile,
            explain,
        } => print(
            out,
            check_all(alloc, libraries, file, profile, explain, files),
        ),
        Request::Build {
            libraries,
            file,
            image,
            options,
        } => {
            build_image(alloc, libraries, file, image, options, files)?;
            Ok(DONE)
        }
        Request::Stat {
            libraries,
            file,
            profile,
            optimisation,
        } => print(
            out,
            measure_file(alloc, libraries, file, profile, optimisation, files),
        ),
        Request::Function {
            libraries,
            file,
            assembler,
            header,
            options,
        } => {
            write_function(alloc, libraries, file, assembler, header, &options, files)?;
            Ok(DONE)
        }
        Request::Eval {
            libraries,
            file,
            arguments,
            explain,
        } => print(
            out,
            evaluate_text(alloc, libraries, file, arguments, explain, files),
        ),
        Request::Run {
            image,
            arguments,
            options,
        } => print(out, run_image(alloc, image, arguments, options, files, err)),
        Request::Leak { image, arguments } => leak_image(alloc, image, arguments, files, out),
        Request::Pair {
            image,
            arguments,
            options,
        } => print(
            out,
            pair_image(alloc, image, arguments, options, files, err),
        ),
        Request::Certify {
            image,
            arguments,
            options,
        } => print(
            out,
            certify_image(alloc, image, arguments, options, files, err),
        ),
        Request::Picture {
            image,
            arguments,
            progress,
        } => print(
            out,
            picture_image(alloc, image, arguments, progress, files, err),
        ),
        Request::List { image } => print(out, list_image(alloc, image, files)),
        Request::Wrap {
            file,
            code,
            image,
            frame,
            steps,
            profile,
        } => {
            let asked = Asked {
                frame_bytes: frame,
                max_steps: steps,
                profile,
            };
            wrap_code(alloc, file, code, image, asked, files)?;
            Ok(DONE)
        }
        Request::Harts { file } => print(out, run_file(alloc, file, jobs, files)),
        Request::Vectors {
            libraries,
            file,
            vectors,
            profile,
            optimisation,
        } => print(
            out,
            try_file(
                alloc,
                libraries,
                file,
                vectors,
                profile,
                optimisation,
                files,
            ),
        ),
        Request::Explain { explanation } => print(out, lines_of(alloc, explanation)),
        Request::ElfCertify {
            file,
            words,
            options,
        } => print(out, certify_elf(alloc, file, &words, options, files, err)),
        Request::ElfLeak {
            file,
            words,
            options,
        } => leak_elf(alloc, file, &words, options, files, out),
        Request::ElfWitness {
            file,
            words,
            options,
            tries,
        } => print(out, witness_elf(alloc, file, &words, options, tries, files)),
    }
}

/// The lines of an explanation.
fn lines_of<'a>(alloc: Global, explanation: Explanation) -> Result<Answer, Fault<'a>>
    ensures finds { (files : Contents) → Finds (Request.Explain explanation) files result }
    ensures read { (files : Store) → IsRead result files files }
{
    let lines = format!(in alloc; "{explanation}\n")?;
    Ok(Answer::of_text(lines))
}

/// Prints an answer to standard output, where there is one, and answers its exit status.
fn print<'a, O: Sink>(out: &mut O, given: Result<Answer, Fault<'a>>) -> Result<u8, Fault<'a>>
    ensures { Prints (IsTrue O.TELLS) (O.taken out.old) (O.taken out.new) (O.failures out.old) (O.failures out.new)
        given.entry result }
{
    let answer = given?;
    match put_all(out, answer.text.as_slice()) {
        Ok(()) => Ok(answer.status),
        Err(_) => Err(Fault::File(FileFault::CannotWrite(STANDARD_OUTPUT))),
    }
}
