// How harts have ended, and the space for that, which is made before they run.

ghost use Rattle.std.specs.Prelude.{◌≡◌, ◌<◌, ◌≤◌, List, length, map, All, IfOk};
ghost use Rattle.harts.specs.Below.{Arg, IsImage, IsSpaceFor, most_images, paged_bytes, results_in, system_now};
ghost use Rattle.harts.specs.EndSpace.{IsEndSpaceFor};
ghost use Rattle.harts.specs.Ends.{outcome_at, end_of, ends_of};
ghost use Rattle.harts.specs.Frames.{job_of, HasImage};
ghost use Rattle.harts.specs.SideBySide.{frame_base_of};

use crate::bases::frame_base;
use hepurita::{ResultSpace, outcome, result_space};
use image::Image;
use language::{Args, Outcome};
use rv_machine::{PagedMemory, RunningHarts, Stop};
use std::alloc::{AllocError, Global};

/// How a hart stands after a schedule.
#[derive(Debug, Drop)]
pub struct HartEnd {
    /// How it has stopped; a hart that is still going has not.
    pub stop: Option<Stop>,
    /// What its slots hold, where it stopped by calling the environment.
    pub outcome: Option<Outcome>,
}

/// Space for how each hart has ended: once it is made, their ends take no memory.
#[derive(Debug, Drop)]
pub struct EndSpace {
    each: Vec<ResultSpace>,
    ends: Vec<HartEnd>,
}

/// Space for how each hart has ended, in their order.
pub fn end_space(alloc: Global, jobs: &[(Image, Args)]) -> Result<EndSpace, AllocError>
    ensures { IfOk result (IsEndSpaceFor (map job_of jobs.now)) }
{
    let mut each = Vec::new(alloc);
    for job in jobs {
        let (image, _) = job;
        each.push(result_space(alloc, image)?)?;
    }
    let ends = Vec::with_capacity(alloc, each.len())?;
    Ok(EndSpace { each, ends })
}

/// The outcome of the hart with this number, where it stopped so.
fn outcome_of(
    number: usize,
    image: &Image,
    stop: Stop,
    memory: &PagedMemory,
    space: ResultSpace,
) -> Option<Outcome>
    requires number { number < most_images }
    requires allowed { IsImage image.now }
    requires space { IsSpaceFor image.now space }
    ensures { result ≡ outcome_at stop (results_in (frame_base_of number) image.now (paged_bytes memory.now)) }
{
    match stop {
        Stop::Ecall => Some(outcome(image, memory, frame_base(number), space)),
        Stop::Break
        | Stop::Illegal
        | Stop::AccessFault
        | Stop::Misaligned
        | Stop::Budget
        | Stop::RecorderRefused => None,
    }
}

/// How the hart with this number has ended, over the bytes as they are.
fn end(
    number: usize,
    image: &Image,
    stop: Option<Stop>,
    memory: &PagedMemory,
    space: ResultSpace,
) -> HartEnd
    requires number { number < most_images }
    requires allowed { IsImage image.now }
    requires space { IsSpaceFor image.now space }
    ensures { (args : List Arg)
        → result ≡ end_of number (record { image = image.now; args = args }) stop (paged_bytes memory.now) }
{
    let outcome = match stop {
        Some(stop) => outcome_of(number, image, stop, memory, space),
        None => None,
    };
    HartEnd { stop, outcome }
}

/// How each hart has ended, in their order.
pub fn ends(
    jobs: &[(Image, Args)],
    running: &RunningHarts<PagedMemory>,
    space: EndSpace,
) -> Vec<HartEnd>
    requires few { length jobs.now ≤ most_images }
    requires allowed { All HasImage (map job_of jobs.now) }
    requires count { length running.now.harts.items ≡ length jobs.now }
    requires space { IsEndSpaceFor (map job_of jobs.now) space }
    ensures { result.items
        ≡ ends_of (map job_of jobs.now) (system_now running.now.harts.items (paged_bytes running.now.memory)) }
{
    let EndSpace { each, mut ends } = space;
    for space in each {
        let number = ends.len();
        let (image, _) = &jobs[number];
        let stop = running.harts[number].stop;
        ends.push_reserved(end(number, image, stop, &running.memory, space));
    }
    ends
}
