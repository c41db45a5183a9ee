// One run of a function of an executable for all that is not known when it begins.

ghost use Rattle.std.specs.Prelude.{◌≡◌, ◌≤◌, ◌<◌, ◌^◌, ◌++◌, ◌⊎◌, codes, true, IsTrue, IfOk, IfErr, Ok, OnOk};
ghost use Rattle.std.specs.Prelude.{OnErr};
ghost use Rattle.commands.specs.Answered.{Finds, IsRead};
ghost use Rattle.commands.specs.Below.{CertifiedFunction, collected, HasLines, needs, Reaches};
ghost use Rattle.commands.specs.FunctionCertificates.{function_certificate_status, function_same_text};
ghost use Rattle.commands.specs.FunctionCertificates.{PrintsExplainedFunction, PrintsFunctionCertificate, run_options};
ghost use Rattle.commands.specs.FunctionCertificates.{SaysCertificateOf, StandsInProgram};
ghost use Rattle.commands.specs.Progress.{FileFunctionTells, FunctionGoesOn, Tells};
ghost use Rattle.elf_runs.specs.Needs.{IsTold};
ghost use Rattle.std.specs.Fmt.{decimal};

use crate::answer::{Answer, MAY_DIFFER};
use crate::certifying::shifts_seen;
use crate::elf_listing::status_of_stop;
use crate::executables::{executable_bytes, line_of_program};
use crate::fault::Fault;
use crate::files::Files;
use crate::function_words::{asked_of, fault_of_start};
use command_line::{FunctionOptions, Request};
use elf::{Program, read};
use elf_reports::{AskedWords, certify_function_telling, explain_function, push_place};
use elf_runs::{
    Asked, FunctionCertificate, FunctionStop, RunOptions, StartFault, calls_to, certify_function,
};
use std::alloc::{AllocError, Global};
use streams::Sink;

/// Whether an observer sees the same of a function of an executable for all that is not known when its run begins, as
/// lines, and the exit status. With `explain` it is said why runs may differ. How many steps the run has made goes to
/// `err`, where that is asked for.
pub fn certify_elf<'a, F: Files, E: Sink>(
    alloc: Global,
    path: &'a str,
    words: &AskedWords<'_>,
    options: FunctionOptions,
    files: &mut F,
    err: &mut E,
) -> Result<Answer, Fault<'a>>
    ensures finds { IsTrue F.TELLS
        → Finds (Request.ElfCertify path.entry words.now options) (F.store files.old).contents result }
    ensures told { IsTrue F.TELLS → IsTrue E.TELLS
        → OnOk result (FileFunctionTells HasLines options.progress (run_options options) (F.store files.old).contents
        path.now words.now (collected (E.taken err.old) (E.failures err.old))
        (collected (E.taken err.new) (E.failures err.new))) }
    ensures part { IsTrue F.TELLS → IsTrue E.TELLS → OnErr result ((err.new ≡ err.old)
        ⊎ FileFunctionTells Reaches options.progress (run_options options) (F.store files.old).contents path.now
        words.now (collected (E.taken err.old) (E.failures err.old))
        (collected (E.taken err.new) (E.failures err.new))) }
    ensures read { IsRead result (F.store files.old) (F.store files.new) }
{
    let bytes = executable_bytes(alloc, path, files)?;
    let program = read(alloc, bytes.as_slice())?;
    let asked = asked_of(alloc, words)?;
    match answer_of(alloc, &program, &asked, options, err) {
        Ok(answer) => Ok(answer),
        Err(fault) => Err(fault_of_start(alloc, words, fault)?),
    }
}

/// The answer for a function of a program, as it is asked for.
fn answer_of<E: Sink>(
    alloc: Global,
    program: &Program<'_>,
    asked: &Asked,
    options: FunctionOptions,
    err: &mut E,
) -> Result<Answer, StartFault>
    ensures says { IfOk result (λ answer.
        SaysCertificateOf options.explain program.now asked.now (run_options options) answer.text.items answer.status) }
    ensures refused { IfErr result (λ fault. IsTold fault (needs program.now asked.now)) }
    ensures told { IsTrue E.TELLS
        → OnOk result (Tells HasLines options.progress (FunctionGoesOn program.now asked.now (run_options options))
        (collected (E.taken err.old) (E.failures err.old)) (collected (E.taken err.new) (E.failures err.new))) }
    ensures part { IsTrue E.TELLS → OnErr result ((err.new ≡ err.old)
        ⊎ Tells HasLines options.progress (FunctionGoesOn program.now asked.now (run_options options))
        (collected (E.taken err.old) (E.failures err.old)) (collected (E.taken err.new) (E.failures err.new))) }
{
    let certificate = certificate_of(alloc, program, asked, options, err)?;
    let run = run_options(options);
    let text = text_of(alloc, program, asked, run, certificate, options.explain)?;
    let status = status_of_certificate(certificate);
    Ok(Answer { text, status })
}

/// How the machine is to run the function.
fn run_options(options: FunctionOptions) -> RunOptions
    ensures exact { result ≡ run_options options }
    ensures bounded { result.steps < 2 ^ 62 }
{
    RunOptions {
        profile: options.profile,
        shifts: shifts_seen(options.shifts),
        steps: options.steps,
    }
}

/// Certifies a function, and says how many steps its run has made where that is asked for.
fn certificate_of<E: Sink>(
    alloc: Global,
    program: &Program<'_>,
    asked: &Asked,
    options: FunctionOptions,
    err: &mut E,
) -> Result<FunctionCertificate, StartFault>
    ensures certified { CertifiedFunction program.now asked.now (run_options options) result }
    ensures told { IsTrue E.TELLS
        → OnOk result (Tells HasLines options.progress (FunctionGoesOn program.now asked.now (run_options options))
        (collected (E.taken err.old) (E.failures err.old)) (collected (E.taken err.new) (E.failures err.new))) }
    ensures untold { OnErr result (err.new ≡ err.old) }
{
    let run = run_options(options);
    if options.progress {
        certify_function_telling(alloc, program, asked, run, err)
    } else {
        certify_function(alloc, program, asked, run)
    }
}

/// A certificate as lines: `same` and the stop, or where runs may begin to differ, the line of what begins there, and
/// its place by the symbols; where it is to be explained, what is unknown there follows.
fn text_of(
    alloc: Global,
    program: &Program<'_>,
    asked: &Asked,
    options: RunOptions,
    certificate: FunctionCertificate,
    explain: bool,
) -> Result<Vec<u8>, StartFault>
    requires steps { options.steps < 2 ^ 62 }
    requires certified { CertifiedFunction program.now asked.now options (Ok certificate) }
    ensures text { IfOk result (λ text.
        PrintsExplainedFunction explain program.now asked.now options certificate text.items) }
    ensures refused { IfErr result (λ fault. IsTold fault (needs program.now asked.now)) }
{
    match certificate {
        FunctionCertificate::Same { stop, .. } => Ok(same_text(alloc, stop)?),
        FunctionCertificate::MayDiffer { entry, pc } => {
            if explain {
                explained_text(alloc, program, asked, options, entry, pc)
            } else {
                difference_text(alloc, program, asked, options, entry, pc)
            }
        }
    }
}

/// Where runs may begin to differ, what stands there, and what is unknown that it reads.
fn explained_text(
    alloc: Global,
    program: &Program<'_>,
    asked: &Asked,
    options: RunOptions,
    entry: u64,
    pc: u32,
) -> Result<Vec<u8>, StartFault>
    requires steps { options.steps < 2 ^ 62 }
    requires certified { CertifiedFunction program.now asked.now options (Ok (FunctionCertificate.MayDiffer entry pc)) }
    ensures text { IfOk result (λ text. PrintsExplainedFunction true program.now asked.now options
        (FunctionCertificate.MayDiffer entry pc) text.items) }
    ensures refused { IfErr result (λ fault. IsTold fault (needs program.now asked.now)) }
{
    let mut text = difference_text(alloc, program, asked, options, entry, pc)?;
    let lines = explain_function(alloc, program, asked, options)?;
    text.extend_from_slice(lines.as_slice())?;
    Ok(text)
}

/// `same` and the line of the stop; that of a stop other than a return comes first.
fn same_text(alloc: Global, stop: FunctionStop) -> Result<Vec<u8>, AllocError>
    ensures { IfOk result (λ text. text.items ≡ function_same_text stop) }
{
    let name = stop.name();
    let text = match stop {
        FunctionStop::Returned => format!(in alloc; "same\nstop {name}\n")?,
        FunctionStop::Stopped(_) => format!(in alloc; "stop {name}\nsame\n")?,
    };
    Ok(text.into_bytes())
}

/// Where runs may begin to differ, the line of what begins there, and the line of the place by the symbols, with the
/// calls that lead there.
fn difference_text(
    alloc: Global,
    program: &Program<'_>,
    asked: &Asked,
    options: RunOptions,
    entry: u64,
    pc: u32,
) -> Result<Vec<u8>, StartFault>
    requires { StandsInProgram program.now (FunctionCertificate.MayDiffer entry pc) }
    ensures text { IfOk result (λ text.
        PrintsFunctionCertificate program.now asked.now options (FunctionCertificate.MayDiffer entry pc) text.items) }
    ensures refused { IfErr result (λ fault. IsTold fault (needs program.now asked.now)) }
{
    let mut text = entry_line(alloc, entry)?;
    let line = line_of_program(alloc, program, pc)?;
    text.extend_from_slice(line.as_slice())?;
    let calls = calls_to(alloc, program, asked, options, entry.saturating_sub(1))?;
    push_place(alloc, &mut text, program, pc, calls.as_slice())?;
    Ok(text)
}

/// The line of the entry that may differ.
fn entry_line(alloc: Global, entry: u64) -> Result<Vec<u8>, AllocError>
    ensures { IfOk result (λ text. text.items ≡ codes "may differ at " ++ decimal entry ++ codes "\n") }
{
    let line = format!(in alloc; "may differ at {entry}\n")?;
    Ok(line.into_bytes())
}

/// The exit status of a certificate.
fn status_of_certificate(certificate: FunctionCertificate) -> u8
    ensures exact { result ≡ function_certificate_status certificate }
    ensures known { result ≤ 5 }
{
    match certificate {
        FunctionCertificate::Same { stop, .. } => status_of_stop(stop),
        FunctionCertificate::MayDiffer { .. } => MAY_DIFFER,
    }
}
