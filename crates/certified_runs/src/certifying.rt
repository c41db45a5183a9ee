// Certified runs: steps of what is known until one stops, or may depend on what is unknown.

ghost use Rattle.std.specs.Prelude.{◌≡◌, ℕ, ◌<◌, ◌^◌, List, length, is_some};
ghost use Rattle.certified_runs.specs.Below.{entries_of, Observation, state_of};
ghost use Rattle.certified_runs.specs.Certified.{RunEnding, CertifiedRun, KnownLeads};
ghost use Rattle.certified_runs.specs.End.{ComesTo, end_of};
ghost use Rattle.certified_runs.specs.Known.{KnownState};
ghost use Rattle.certified_runs.specs.Parts.{known_of};

use crate::known_parts::KnownParts;
use crate::steps::{StepEnd, known_step};
use rv_machine::{Memory, Running, Stop};
use rv_programs::Program;

/// How a certified run ends. Entries are what an observer sees, one by one: each program counter, and
/// after it what that step loads, stores, divides or multiplies.
#[derive(Clone, Copy, Debug, PartialEq, Eq)]
pub enum CertifiedEnd {
    /// All that is unknown makes no difference: so many entries are shown, and then the run stops so.
    Same { stop: Stop, entries: u64 },
    /// This entry, counted from 0, is the first that may differ. It is the one after the entry for
    /// this program counter, whose instruction goes by something that is unknown, or, where shifts are seen, shifts by
    /// an amount that is.
    MayDiffer { entry: u64, pc: u32 },
}

/// Makes steps of a run of which these parts are known, until one stops, or until what it shows may
/// depend on what is unknown. It makes no more steps than the run may still make, and takes no memory.
/// A run of which no step is left can be given more of them, and goes on from there; one of which some are left has
/// ended, and stands where the step that ended it began.
// It is never compiled in line: beside a caller's own values, those of the steps do not fit the registers.
#[inline(never)]
pub fn certify<P: Program, M: Memory>(
    program: &P,
    run: &mut Running<M>,
    known: &mut KnownParts<M>,
) -> CertifiedEnd
    requires few { run.old.steps_left < 2 ^ 63 }
    requires extent { (a : ℕ) → is_some (M.bytes known.old.marks a) ≡ is_some (M.bytes run.old.memory a) }
    ensures certified { (seen : List Observation) × (ending : RunEnding)
        × CertifiedRun (P.program program.now) run.old.steps_left
        (known_of (state_of run.old.hart (M.bytes run.old.memory)) known.old.registers (M.bytes known.old.marks)
        known.old.shifts) seen ending
        × (result ≡ end_of seen ending) }
    ensures spent { run.new.steps_left ≡ 0
        → (seen : List Observation)
        × KnownLeads (P.program program.now) run.old.steps_left
        (known_of (state_of run.old.hart (M.bytes run.old.memory)) known.old.registers (M.bytes known.old.marks)
        known.old.shifts) seen
        (known_of (state_of run.new.hart (M.bytes run.new.memory)) known.new.registers (M.bytes known.new.marks)
        known.new.shifts)
        × (result ≡ CertifiedEnd.Same Stop.Budget (length (entries_of seen))) }
    ensures ended { (seen : List Observation) (later : KnownState)
        → 0 < run.new.steps_left
        → KnownLeads (P.program program.now) run.old.steps_left
        (known_of (state_of run.old.hart (M.bytes run.old.memory)) known.old.registers (M.bytes known.old.marks)
        known.old.shifts) seen later
        → ⊥ }
    ensures stopped { 0 < run.new.steps_left → ComesTo (P.program program.now)
        (known_of (state_of run.old.hart (M.bytes run.old.memory)) known.old.registers (M.bytes known.old.marks)
        known.old.shifts) (state_of run.new.hart (M.bytes run.new.memory)) result }
    ensures extent { (a : ℕ) → is_some (M.bytes known.new.marks a) ≡ is_some (M.bytes run.new.memory a) }
{
    let mut entries = 0;
    while run.steps_left > 0 {
        match known_step(program, &mut run.hart, &mut run.memory, known) {
            StepEnd::LeadsOn(more) => entries += more,
            StepEnd::Ends(more, stop) => {
                return CertifiedEnd::Same {
                    stop,
                    entries: entries + more,
                };
            }
            StepEnd::Depends => {
                return CertifiedEnd::MayDiffer {
                    entry: entries + 1,
                    pc: run.hart.pc(),
                };
            }
        }
        run.steps_left -= 1;
    }
    CertifiedEnd::Same {
        stop: Stop::Budget,
        entries,
    }
}
