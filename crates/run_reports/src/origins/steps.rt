// One step of what is known.

ghost use Rattle.std.specs.Prelude.{◌≡◌, ℕ, is_some};
ghost use Rattle.run_reports.specs.Below.{known_of, state_of};
ghost use Rattle.run_reports.specs.origins.Stepped.{HasStepped};

use certified_runs::{CertifiedEnd, KnownParts, certify};
use rv_machine::{Memory, Running};
use rv_programs::Program;

/// How one step of what is known ends.
#[derive(Clone, Copy)]
pub(crate) enum StepEnd {
    /// It shows so many entries and goes on.
    LeadsOn(u64),
    /// It stops.
    Ends,
    /// What it shows may depend on what is unknown.
    Depends,
}

/// Makes the next step of what is known, as `certify` does.
pub(crate) fn known_step<P: Program, M: Memory>(
    program: &P,
    run: &mut Running<M>,
    known: &mut KnownParts<M>,
) -> StepEnd
    requires { (a : ℕ) → is_some (M.bytes known.old.marks a) ≡ is_some (M.bytes run.old.memory a) }
    ensures stepped { HasStepped (P.program program.now)
        (known_of (state_of run.old.hart (M.bytes run.old.memory)) known.old.registers (M.bytes known.old.marks)
        known.old.shifts) result
        (known_of (state_of run.new.hart (M.bytes run.new.memory)) known.new.registers (M.bytes known.new.marks)
        known.new.shifts) }
    ensures extent { (a : ℕ) → is_some (M.bytes known.new.marks a) ≡ is_some (M.bytes run.new.memory a) }
{
    run.steps_left = 1;
    match certify(program, run, known) {
        CertifiedEnd::MayDiffer { .. } => StepEnd::Depends,
        CertifiedEnd::Same { entries, .. } => {
            if run.steps_left == 0 {
                StepEnd::LeadsOn(entries)
            } else {
                StepEnd::Ends
            }
        }
    }
}
