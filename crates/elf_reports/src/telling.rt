// One run of a function for all that is not known when it begins, told as it goes on.

ghost use Rattle.std.specs.Prelude.{◌≡◌, ◌^◌, ◌<◌, IsTrue, OnErr, OnOk};
ghost use Rattle.elf_reports.specs.Below.{CertifiedFunction, collected, GoesOnKnown, HasLines, known_at_start};
ghost use Rattle.elf_reports.specs.Below.{LinesAreTold, machine_program};

use elf::Program;
use elf_runs::{Asked, FunctionCertificate, RunOptions, StartFault, certificate_at, load_function};
use run_reports::progress::certify_in_pieces;
use std::alloc::Global;
use streams::Sink;

/// Runs a function of a program once for all that is not known when it begins, as `certify_function` does, and a line
/// goes out behind each so many steps after which the run goes on.
pub fn certify_function_telling<E: Sink>(
    alloc: Global,
    program: &Program<'_>,
    asked: &Asked,
    options: RunOptions,
    err: &mut E,
) -> Result<FunctionCertificate, StartFault>
    requires { options.steps < 2 ^ 62 }
    ensures certified { CertifiedFunction program.now asked.now options result }
    ensures told { IsTrue E.TELLS
        → OnOk result (LinesAreTold HasLines
        (GoesOnKnown (machine_program program.now asked.now options.profile) options.steps
        (known_at_start program.now asked.now options.shifts))
        (collected (E.taken err.old) (E.failures err.old))
        (collected (E.taken err.new) (E.failures err.new))) }
    ensures untold { OnErr result (err.new ≡ err.old) }
{
    let mut loaded = load_function(alloc, program, asked, options)?;
    let end = certify_in_pieces(&loaded.program, &mut loaded.run, &mut loaded.known, err);
    Ok(certificate_at(loaded.run.hart.pc(), end))
}
