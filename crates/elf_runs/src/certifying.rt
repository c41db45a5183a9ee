// One run of a function for all that is not known when it begins.

ghost use Rattle.std.specs.Prelude.{◌≡◌, ◌^◌, ◌<◌};
ghost use Rattle.elf_runs.specs.Certified.{certificate_at, CertifiedFunction};

use crate::fault::StartFault;
use crate::loading::load_function;
use crate::options::RunOptions;
use certified_runs::{CertifiedEnd, certify};
use elf::Program;
use elf_memory::{Asked, FunctionStop};
use std::alloc::Global;

/// How a certified run of a function ends. Entries are what an observer sees, one by one: each program counter, and
/// after it what that step loads, stores, divides or multiplies.
#[derive(Clone, Copy, Debug, PartialEq, Eq)]
pub enum FunctionCertificate {
    /// All that is not known makes no difference: so many entries are shown, and then the run stops so.
    Same { stop: FunctionStop, entries: u64 },
    /// This entry, counted from 0, is the first that may differ. It is the one after the entry for this program
    /// counter.
    MayDiffer { entry: u64, pc: u32 },
}

/// The certificate of a run that ends so, at this address.
pub fn certificate_at(address: u32, end: CertifiedEnd) -> FunctionCertificate
    ensures { result ≡ certificate_at address end }
{
    match end {
        CertifiedEnd::Same { stop, entries } => FunctionCertificate::Same {
            stop: FunctionStop::of(stop, address),
            entries,
        },
        CertifiedEnd::MayDiffer { entry, pc } => FunctionCertificate::MayDiffer { entry, pc },
    }
}

/// Runs a function of a program once for all that is not known when it begins, and answers whether an observer sees the
/// same of all runs. What the request does not meet is refused. Once the function is loaded the run takes no memory.
pub fn certify_function(
    alloc: Global,
    program: &Program<'_>,
    asked: &Asked,
    options: RunOptions,
) -> Result<FunctionCertificate, StartFault>
    requires { options.steps < 2 ^ 62 }
    ensures { CertifiedFunction program.now asked.now options result }
{
    let mut loaded = load_function(alloc, program, asked, options)?;
    let end = certify(&loaded.program, &mut loaded.run, &mut loaded.known);
    Ok(certificate_at(loaded.run.hart.pc(), end))
}
