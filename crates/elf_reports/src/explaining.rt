// Why what an observer sees of a function may differ.

ghost use Rattle.std.specs.Prelude.{◌<◌, ◌^◌, ℕ, Ok, IfErr, IfOk};
ghost use Rattle.elf_reports.specs.Below.{CertifiedFunction, IsTold, MayDiffer, needs};
ghost use Rattle.elf_reports.specs.Explained.{ExplainsFunction};

use crate::origin_lines::origin_lines;
use elf::Program;
use elf_runs::{Asked, RunOptions, StartFault, load_function};
use run_reports::origins::trace;
use std::alloc::Global;

/// The lines that explain why what an observer sees of a function may differ for some values of what is not known when
/// its run begins: for each register that the instruction of the step reads and that is unknown, since which load it
/// is, and what that load read; or that it is since the start. The certified run is made again.
pub fn explain_function(
    alloc: Global,
    program: &Program<'_>,
    asked: &Asked,
    options: RunOptions,
) -> Result<Vec<u8>, StartFault>
    requires steps { options.steps < 2 ^ 62 }
    requires differs { (entry pc : ℕ) × CertifiedFunction program.now asked.now options (Ok (MayDiffer entry pc)) }
    ensures text { IfOk result (λ text. ExplainsFunction program.now asked.now options text.items) }
    ensures refused { IfErr result (λ fault. IsTold fault (needs program.now asked.now)) }
{
    let mut loaded = load_function(alloc, program, asked, options)?;
    let Some(undecided) = trace(&loaded.program, &mut loaded.run, &mut loaded.known) else {
        unreachable!();
    };
    Ok(origin_lines(alloc, program, asked, &undecided)?)
}
