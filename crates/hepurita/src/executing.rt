// A run of an image on arguments.

ghost use Rattle.std.specs.Prelude.{◌≡◌, ◌≢◌, ◌+◌, ◌^◌, ◌<◌, Err};
ghost use Rattle.hepurita.specs.Executed.{Executed, answer_at, refusals_after};
ghost use Rattle.hepurita.specs.Below.{HasRefused, paged_bytes};
ghost use Rattle.hepurita.specs.Bases.{frame_base};
ghost use Rattle.hepurita.specs.Frames.{IsSpaceFor};

use crate::checking::first_fault;
use crate::fault::RunFault;
use crate::loading::{FRAME_BASE, code, load};
use crate::results::{ResultSpace, outcome, result_space};
use image::Image;
use language::{Args, Outcome};
use rv_machine::recording::Recorder;
use rv_machine::{PagedMemory, Running, Stop, run};
use std::alloc::Global;

/// What is answered where the machine stops so.
// It is compiled in line: a call would take the memory's address, and then what the steps before it work on does not
// stay in registers.
#[inline(always)]
pub fn answer(
    image: &Image,
    space: ResultSpace,
    stop: Stop,
    memory: &PagedMemory,
) -> Result<Outcome, RunFault>
    requires space { IsSpaceFor image.now space }
    requires frame { frame_base + image.now.frame_bytes < 2 ^ 32 }
    ensures { result ≡ answer_at frame_base image.now stop (paged_bytes memory.now) }
{
    match stop {
        Stop::Ecall => Ok(outcome(image, memory, FRAME_BASE, space)),
        Stop::Break => Err(RunFault::Stopped(Stop::Break)),
        Stop::Illegal => Err(RunFault::Stopped(Stop::Illegal)),
        Stop::AccessFault => Err(RunFault::Stopped(Stop::AccessFault)),
        Stop::Misaligned => Err(RunFault::Stopped(Stop::Misaligned)),
        Stop::Budget => Err(RunFault::Stopped(Stop::Budget)),
        Stop::RecorderRefused => Err(RunFault::Stopped(Stop::RecorderRefused)),
    }
}

/// Runs an image on arguments, and answers the outcome. The recorder takes what an observer sees of
/// the run. Arguments are refused by their first fault, before memory is asked for.
// It is never compiled in line: beside a caller's own values, those of the steps do not fit the registers.
#[inline(never)]
pub fn execute<R: Recorder>(
    alloc: Global,
    image: &Image,
    args: &Args,
    recorder: &mut R,
) -> Result<Outcome, RunFault>
    ensures executed { Executed image.now args.now R.KEEPS (R.list recorder.old) result (R.list recorder.new) }
    ensures refused { result ≡ Err (RunFault.Stopped Stop.RecorderRefused)
        → HasRefused (R.refusals recorder.old) (R.refusals recorder.new) }
    ensures count { R.refusals recorder.new ≡ refusals_after result (R.refusals recorder.old) }
    ensures ready { R.is_ready recorder.old image.now.max_steps → result ≢ Err (RunFault.Stopped Stop.RecorderRefused) }
    ensures memory { result ≡ Err RunFault.Memory → R.list recorder.new ≡ R.list recorder.old }
{
    if let Some(fault) = first_fault(image, args) {
        return Err(RunFault::from(fault));
    }
    let code = code(alloc, image)?;
    let space = result_space(alloc, image)?;
    let loaded = load(alloc, image, args)?;
    let Running {
        mut hart,
        mut memory,
        steps_left,
    } = loaded;
    let stop = run(&mut hart, &code, &mut memory, recorder, steps_left);
    answer(image, space, stop, &memory)
}
