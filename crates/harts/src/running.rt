// A run of several images side by side.

ghost use Rattle.std.specs.Prelude.{◌≡◌, ◌≢◌, ◌⊎◌, map, Err, OnOk};
ghost use Rattle.harts.specs.RunHarts.{RunsHarts, answer_of};
ghost use Rattle.harts.specs.Frames.{job_of};
ghost use Rattle.rv_machine.specs.Recording.{HasRefused};

use crate::checking::check;
use crate::ends::{HartEnd, end_space, ends};
use crate::fault::HartsFault;
use crate::loading::load;
use image::Image;
use language::Args;
use rv_machine::HartRecorder;
use std::alloc::Global;

/// Loads images with their arguments side by side, each entry of the schedule giving one step to the
/// hart that it names, and answers how each hart has ended. The recorder takes what the steps show. A
/// hart's steps end when it stops; no count of steps stops it, and the schedule's end is no stop.
/// Harts, arguments and schedules are refused by their first fault, before memory is asked for. Once
/// the harts are loaded the recorder alone takes memory.
pub fn run_harts<R: HartRecorder>(
    alloc: Global,
    jobs: &[(Image, Args)],
    schedule: &[u8],
    recorder: &mut R,
) -> Result<Vec<HartEnd>, HartsFault>
    ensures ran { RunsHarts (map job_of jobs.now) schedule.now R.KEEPS (R.list recorder.old) (answer_of result)
        (R.list recorder.new) }
    ensures calm { result ≢ Err HartsFault.Memory → R.refusals recorder.new ≡ R.refusals recorder.old }
    ensures memory { result ≡ Err HartsFault.Memory
        → (recorder.new ≡ recorder.old) ⊎ HasRefused (R.refusals recorder.old) (R.refusals recorder.new) }
{
    check(jobs, schedule)?;
    let space = end_space(alloc, jobs)?;
    let mut running = load(alloc, jobs)?;
    running.follow(alloc, schedule, recorder)?;
    Ok(ends(jobs, &running, space))
}
