// The listing of a run of a function of an executable.

ghost use Rattle.std.specs.Prelude.{◌≡◌, ◌≤◌, IsTrue};
ghost use Rattle.commands.specs.Answered.{Does, IsEnded};
ghost use Rattle.commands.specs.Below.{collected};
ghost use Rattle.commands.specs.FunctionLeaks.{observed_run};
ghost use Rattle.commands.specs.Stops.{function_stop_status};

use crate::answer::{DONE, STOPPED};
use crate::executables::executable_bytes;
use crate::fault::{Fault, FileFault};
use crate::files::Files;
use crate::function_words::{asked_of, fault_of_start};
use crate::performing::STANDARD_OUTPUT;
use certified_runs::Shifts;
use command_line::{ObservedOptions, Request};
use elf::read;
use elf_reports::{AskedWords, FunctionLeakFault, leak_function};
use elf_runs::{FunctionStop, RunOptions};
use std::alloc::Global;
use streams::Sink;

/// Prints what an observer sees of the run of a function of an executable in which all that is not set is as it stands
/// when the run begins, and how the run stops. Answers the exit status.
pub fn leak_elf<'a, F: Files, O: Sink>(
    alloc: Global,
    path: &'a str,
    words: &AskedWords<'_>,
    options: ObservedOptions,
    files: &mut F,
    out: &mut O,
) -> Result<u8, Fault<'a>>
    ensures does { IsTrue F.TELLS → IsTrue O.TELLS
        → Does (Request.ElfLeak path.entry words.now options) (F.store files.old) (F.store files.new)
        (collected (O.taken out.old) (O.failures out.old)) (collected (O.taken out.new) (O.failures out.new)) result }
    ensures ended { IsEnded result (F.store files.old).failures (F.store files.new).failures
        (O.failures out.old) (O.failures out.new) }
{
    let bytes = executable_bytes(alloc, path, files)?;
    let program = read(alloc, bytes.as_slice())?;
    let asked = asked_of(alloc, words)?;
    match leak_function(alloc, &program, &asked, observed_run(options), out) {
        Ok(how) => Ok(status_of_stop(how)),
        Err(FunctionLeakFault::Start(fault)) => Err(fault_of_start(alloc, words, fault)?),
        Err(FunctionLeakFault::Write) => {
            Err(Fault::File(FileFault::CannotWrite(STANDARD_OUTPUT)))
        }
    }
}

/// How the machine is to make runs one by one. What amounts of shifts are makes no difference to them.
pub fn observed_run(options: ObservedOptions) -> RunOptions
    ensures { result ≡ observed_run options }
{
    RunOptions {
        profile: options.profile,
        shifts: Shifts::Hidden,
        steps: options.steps,
    }
}

/// The exit status of a function's run that stops so.
pub fn status_of_stop(how: FunctionStop) -> u8
    ensures exact { result ≡ function_stop_status how }
    ensures known { result ≤ 5 }
{
    match how {
        FunctionStop::Returned => DONE,
        FunctionStop::Stopped(_) => STOPPED,
    }
}
