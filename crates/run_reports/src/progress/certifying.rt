// A certified run in pieces.

ghost use Rattle.std.specs.Prelude.{◌≡◌, ℕ, ◌+◌, ◌^◌, ◌<◌, List, IsTrue, is_some};
ghost use Rattle.run_reports.specs.Below.{CertifiedRun, collected, ComesTo, end_of, known_of, Observation, RunEnding};
ghost use Rattle.run_reports.specs.Below.{state_of};
ghost use Rattle.run_reports.specs.progress.Certified.{GoesOnKnown, entries_at, end_behind};
ghost use Rattle.run_reports.specs.progress.GoingOn.{HasLines, IsTold};

use crate::progress::lines::{ProgressLines, STEPS_A_LINE};
use certified_runs::{CertifiedEnd, KnownParts, certify};
use rv_machine::{Memory, Running, Stop};
use rv_programs::Program;
use streams::Sink;

/// How many entries are counted where a run ends so.
fn entries_at(end: CertifiedEnd) -> u64
    ensures { result ≡ entries_at end }
{
    match end {
        CertifiedEnd::Same { entries, .. } => entries,
        CertifiedEnd::MayDiffer { entry, .. } => entry,
    }
}

/// The end of a run of which so many entries were shown before.
fn end_behind(before: u64, end: CertifiedEnd) -> CertifiedEnd
    requires { before + entries_at end < 2 ^ 64 }
    ensures { result ≡ end_behind before end }
{
    match end {
        CertifiedEnd::Same { stop, entries } => CertifiedEnd::Same {
            stop,
            entries: before + entries,
        },
        CertifiedEnd::MayDiffer { entry, pc } => CertifiedEnd::MayDiffer {
            entry: before + entry,
            pc,
        },
    }
}

/// Makes steps of a run of which these parts are known, as `certify` does. A line goes out behind each `STEPS_A_LINE`
/// steps after which the run goes on.
pub fn certify_in_pieces<P: Program, M: Memory, E: Sink>(
    program: &P,
    run: &mut Running<M>,
    known: &mut KnownParts<M>,
    err: &mut E,
) -> CertifiedEnd
    requires few { run.old.steps_left < 2 ^ 62 }
    requires extent { (a : ℕ) → is_some (M.bytes known.old.marks a) ≡ is_some (M.bytes run.old.memory a) }
    ensures certified { (seen : List Observation) × (ending : RunEnding)
        × CertifiedRun (P.program program.now) run.old.steps_left
        (known_of (state_of run.old.hart (M.bytes run.old.memory)) known.old.registers (M.bytes known.old.marks)
        known.old.shifts) seen ending
        × (result ≡ end_of seen ending) }
    ensures stopped { 0 < run.new.steps_left → ComesTo (P.program program.now)
        (known_of (state_of run.old.hart (M.bytes run.old.memory)) known.old.registers (M.bytes known.old.marks)
        known.old.shifts) (state_of run.new.hart (M.bytes run.new.memory)) result }
    ensures spent { run.new.steps_left ≡ 0
        → (entries : ℕ) × (result ≡ CertifiedEnd.Same Stop.Budget entries) }
    ensures told { IsTrue E.TELLS
        → IsTold HasLines
        (GoesOnKnown (P.program program.now) run.old.steps_left
        (known_of (state_of run.old.hart (M.bytes run.old.memory)) known.old.registers (M.bytes known.old.marks)
        known.old.shifts))
        (collected (E.taken err.old) (E.failures err.old))
        (collected (E.taken err.new) (E.failures err.new)) }
{
    let mut lines = ProgressLines::new();
    let mut entries = 0;
    let mut left = run.steps_left;
    while left > STEPS_A_LINE {
        run.steps_left = STEPS_A_LINE;
        let end = certify(program, run, known);
        if run.steps_left > 0 {
            return end_behind(entries, end);
        }
        entries += entries_at(end);
        left -= STEPS_A_LINE;
        lines.tell(err);
    }
    run.steps_left = left;
    let end = certify(program, run, known);
    end_behind(entries, end)
}
