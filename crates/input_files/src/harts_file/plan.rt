// Plans: harts, and the order of their turns.

ghost use Rattle.std.specs.Prelude.{◌≡◌, ◌≢◌, ◌⊎◌, ◌<◌, ◌≤◌, ℕ, All, List, map, vec_len, IfOk, IfErr, IsErrOf, IsTrue};
ghost use Rattle.std.specs.Prelude.{Err};
ghost use Rattle.std.specs.Str.{IsUtf8};
ghost use Rattle.input_files.specs.Below.{most_images, most_turns, one_more};
ghost use Rattle.input_files.specs.harts_file.Plans.{IsPlan};
ghost use Rattle.input_files.specs.harts_file.Faults.{IsFileFault};
ghost use Rattle.input_files.specs.harts_file.Jobs.{hart_of};
ghost use Rattle.input_files.specs.harts_file.private.Reading.{HasRead, IsTaken};

use crate::harts_file::fault::{PlanFault, PlanFileFault};
use crate::harts_file::jobs::FileJob;
use crate::harts_file::pieces::PlanFile;
use crate::harts_file::taken_lines::TakenLines;
use harts::HartsRule;
use std::alloc::Global;
use streams::{Source, SourceFault};

/// Harts, whose numbers count from 0, and whose turn it is, from the first turn to the last.
#[derive(Debug, Drop)]
pub struct HartsPlan {
    pub jobs: Vec<FileJob>,
    pub schedule: Vec<u8>,
    ghost few: { vec_len jobs ≤ most_images },
    ghost known: { All (λ hart. hart < vec_len jobs) schedule.items },
    ghost short: { vec_len schedule ≤ most_turns },
}

/// How many bytes one call of a source is asked for.
const PIECE: usize = 4096;

/// Reads a source to its end. More pieces than can be counted are as much as there is no memory for.
fn read_lines<R: Source>(alloc: Global, source: &mut R) -> Result<PlanFile, PlanFileFault>
    ensures whole { IfOk result (λ file.
        (text : List ℕ) × HasRead file text × (IsTrue R.TELLS → text ≡ R.coming source.old)) }
    ensures fault { IfErr result (λ fault.
        (fault ≡ PlanFileFault.Read) ⊎ (fault ≡ PlanFileFault.Plan PlanFault.Memory)) }
    ensures calm { result ≢ Err PlanFileFault.Read → R.failures source.new ≡ R.failures source.old }
    ensures counts { IsErrOf result PlanFileFault.Read → R.failures source.new ≡ one_more (R.failures source.old) }
{
    let mut file = PlanFile::new(alloc);
    let mut piece = [0u8; PIECE];
    'pieces: for _ in 0..u64::MAX {
        match source.get(&mut piece) {
            Ok(0) => return Ok(file),
            Ok(count) => file.take_piece(alloc, &piece[..count])?,
            Err(SourceFault) => return Err(PlanFileFault::Read),
        }
    }
    Err(PlanFileFault::Plan(PlanFault::Memory))
}

/// The plan that lines give. That there is no hart stands at line 1.
fn plan_of(taken: TakenLines) -> Result<HartsPlan, PlanFileFault>
    requires { (text : List ℕ) × IsTaken taken text }
    ensures plan { IfOk result (λ plan. (text : List ℕ) → IsTaken taken text
        → IsUtf8 text × IsPlan text (map hart_of plan.jobs.items) plan.schedule.items) }
    ensures fault { IfErr result (λ fault. (text : List ℕ) → IsTaken taken text → IsFileFault text fault) }
    ensures read { result ≢ Err PlanFileFault.Read }
{
    if !taken.is_text {
        return Err(PlanFileFault::NotUtf8);
    }
    if let Some(fault) = taken.first {
        return Err(PlanFileFault::Plan(PlanFault::Line {
            rule: fault.rule,
            line: fault.line,
        }));
    }
    if taken.plan.jobs.is_empty() {
        return Err(PlanFileFault::Plan(PlanFault::Line {
            rule: HartsRule::HartCount,
            line: 1,
        }));
    }
    Ok(HartsPlan {
        jobs: taken.plan.jobs,
        schedule: taken.plan.schedule,
    })
}

/// Reads the lines of a source to its end, of which each but the last is ended by a line feed: harts first, then turns.
/// Answers the plan; else that its bytes are no text, or else the first faulty line and the first rule that it breaks.
/// Memory is taken for the plan and for one line at a time. No failed call is tried again.
pub fn read<R: Source>(alloc: Global, source: &mut R) -> Result<HartsPlan, PlanFileFault>
    ensures plan { IsTrue R.TELLS → IfOk result (λ plan. IsUtf8 (R.coming source.old)
        × IsPlan (R.coming source.old) (map hart_of plan.jobs.items) plan.schedule.items) }
    ensures fault { IsTrue R.TELLS → IfErr result (IsFileFault (R.coming source.old)) }
    ensures calm { result ≢ Err PlanFileFault.Read → R.failures source.new ≡ R.failures source.old }
    ensures counts { IsErrOf result PlanFileFault.Read → R.failures source.new ≡ one_more (R.failures source.old) }
{
    let file = read_lines(alloc, source)?;
    let taken = file.end(alloc)?;
    plan_of(taken)
}
