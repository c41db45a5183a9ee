// What is refused before memory is asked for.

ghost use Rattle.std.specs.Prelude.{◌≡◌, ◌<◌, ◌≤◌, length, map, None, All, OnOk, IfErr};
ghost use Rattle.harts.specs.Refused.{most_turns, fault_in, HasNoFault, AreFew, AreAllowed, RefusesCount};
ghost use Rattle.harts.specs.Refused.{RefusesArguments, RefusesSchedule, Refuses};
ghost use Rattle.harts.specs.Frames.{job_of, IsRunnable};

use crate::bases::MOST_IMAGES;
use crate::fault::{HartsFault, HartsRule};
use hepurita::first_fault;
use image::Image;
use language::Args;
use language::arguments::ArgumentFault;

/// The most entries of a schedule that are followed.
pub const MOST_TURNS: usize = 1_048_576;

/// There have to be harts, and not too many.
fn check_count(harts: usize) -> Result<(), HartsFault>
    ensures few { OnOk result (AreFew harts) }
    ensures refused { IfErr result (RefusesCount harts) }
{
    if harts == 0 || harts > MOST_IMAGES {
        return Err(HartsFault::Schedule {
            rule: HartsRule::HartCount,
            at: 0,
        });
    }
    Ok(())
}

/// The first fault of a hart's arguments.
fn argument_fault(job: &(Image, Args)) -> Option<ArgumentFault>
    ensures fault { result ≡ fault_in (job_of job.now) }
    ensures within { result ≡ None → IsRunnable (job_of job.now) }
{
    let (image, args) = job;
    first_fault(image, args)
}

/// The arguments of each hart have to be within its parameters' types.
fn check_arguments(jobs: &[(Image, Args)]) -> Result<(), HartsFault>
    ensures faultless { OnOk result (All HasNoFault (map job_of jobs.now)) }
    ensures within { OnOk result (All IsRunnable (map job_of jobs.now)) }
    ensures refused { IfErr result (RefusesArguments (map job_of jobs.now)) }
{
    for (hart, job) in jobs.iter().enumerate() {
        if let Some(ArgumentFault { rule, index }) = argument_fault(job) {
            return Err(HartsFault::Argument { hart, rule, index });
        }
    }
    Ok(())
}

/// Each entry of a schedule has to name one of so many harts, and there may not be too many entries.
fn check_schedule(harts: usize, schedule: &[u8]) -> Result<(), HartsFault>
    ensures named { OnOk result (All (λ number. number < harts) schedule.now) }
    ensures short { OnOk result (length schedule.now ≤ most_turns) }
    ensures refused { IfErr result (RefusesSchedule harts schedule.now) }
{
    for (at, &number) in schedule.iter().enumerate() {
        if usize::from(number) >= harts {
            let rule = HartsRule::NoSuchHart;
            return Err(HartsFault::Schedule { rule, at });
        }
        if at >= MOST_TURNS {
            let rule = HartsRule::TooManyTurns;
            return Err(HartsFault::Schedule { rule, at });
        }
    }
    Ok(())
}

/// Refuses harts and schedules by the first rule that they break: first the count of harts, then the
/// arguments of hart after hart, then the schedule's entries. It takes no memory.
pub fn check(jobs: &[(Image, Args)], schedule: &[u8]) -> Result<(), HartsFault>
    ensures allowed { OnOk result (AreAllowed (map job_of jobs.now) schedule.now) }
    ensures within { OnOk result (All IsRunnable (map job_of jobs.now)) }
    ensures refused { IfErr result (Refuses (map job_of jobs.now) schedule.now) }
{
    check_count(jobs.len())?;
    check_arguments(jobs)?;
    check_schedule(jobs.len(), schedule)
}
