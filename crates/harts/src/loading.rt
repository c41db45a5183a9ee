// Several images and their arguments, loaded side by side.

ghost use Rattle.std.specs.Prelude.{◌≡◌, ℕ, ◌<◌, ◌≤◌, List, length, map, All, IfOk, OnOk};
ghost use Rattle.harts.specs.Below.{Arg, member_now, most_images, paged_bytes, system_now};
ghost use Rattle.harts.specs.Frames.{job_of, each_from, IsRunnable, HasImage, frame_of, with_all_arguments, HoldFrames};
ghost use Rattle.harts.specs.SideBySide.{member_of, members_from, bytes_from, system_of};

use crate::bases::{code_base, frame_base};
use hepurita::put_arguments;
use image::Image;
use language::Args;
use rv_machine::memory::Memory;
use rv_machine::{AddressRange, CodeRegion, Hart, PagedMemory, RunningHart, RunningHarts};
use std::alloc::{AllocError, Global};

/// The addresses of each frame.
fn ranges(alloc: Global, jobs: &[(Image, Args)]) -> Result<Vec<AddressRange>, AllocError>
    requires { length jobs.now ≤ most_images }
    ensures frames { IfOk result (λ ranges. ranges.items ≡ each_from frame_of 0 (map job_of jobs.now)) }
    ensures allowed { OnOk result (All HasImage (map job_of jobs.now)) }
{
    let mut ranges = Vec::new(alloc);
    for (number, job) in jobs.iter().enumerate() {
        let (image, _) = job;
        let begin = u64::from(frame_base(number));
        let end = begin + u64::from(image.frame_bytes());
        ranges.push(AddressRange { begin, end })?;
    }
    Ok(ranges)
}

/// Puts the arguments of each into its frame.
fn put_all<M: Memory>(memory: &mut M, jobs: &[(Image, Args)])
    requires few { length jobs.now ≤ most_images }
    requires within { All IsRunnable (map job_of jobs.now) }
    requires data { HoldFrames (map job_of jobs.now) (M.bytes memory.old) }
    ensures { M.bytes memory.new ≡ with_all_arguments 0 (map job_of jobs.now) (M.bytes memory.old) }
{
    for (number, job) in jobs.iter().enumerate() {
        let (image, args) = job;
        put_arguments(memory, frame_base(number), image.slots(), args.as_slice());
    }
}

/// The frames of all of them in one memory, with the arguments in their slots, and no other data.
fn frames(alloc: Global, jobs: &[(Image, Args)]) -> Result<PagedMemory, AllocError>
    requires few { length jobs.now ≤ most_images }
    requires within { All IsRunnable (map job_of jobs.now) }
    ensures allowed { OnOk result (All HasImage (map job_of jobs.now)) }
    ensures bytes { IfOk result (λ memory. paged_bytes memory ≡ bytes_from 0 (map job_of jobs.now)) }
{
    let ranges = ranges(alloc, jobs)?;
    let mut memory = PagedMemory::new(alloc, ranges.as_slice())?;
    put_all(&mut memory, jobs);
    Ok(memory)
}

/// The hart of the image with this number, with its own code alone, for the image's observer.
fn hart(alloc: Global, number: usize, image: &Image) -> Result<RunningHart, AllocError>
    requires { number < most_images }
    ensures { (args : List Arg)
        → IfOk result (λ hart. member_now hart ≡ member_of number (record { image = image.now; args = args })) }
{
    let base = code_base(number);
    Ok(RunningHart {
        hart: Hart::new(base, frame_base(number)),
        code: CodeRegion::new_as(alloc, base, image.words(), image.profile())?,
        stop: None,
    })
}

/// The hart of each image, in their order.
fn harts(alloc: Global, jobs: &[(Image, Args)]) -> Result<Vec<RunningHart>, AllocError>
    requires { length jobs.now ≤ most_images }
    ensures { IfOk result (λ harts. map member_now harts.items ≡ members_from 0 (map job_of jobs.now)) }
{
    let mut harts = Vec::new(alloc);
    for (number, job) in jobs.iter().enumerate() {
        let (image, _) = job;
        harts.push(hart(alloc, number, image)?)?;
    }
    Ok(harts)
}

/// Images on arguments that are within their parameters' types, side by side. No step was made yet.
pub fn load(alloc: Global, jobs: &[(Image, Args)]) -> Result<RunningHarts<PagedMemory>, AllocError>
    requires few { length jobs.now ≤ most_images }
    requires within { All IsRunnable (map job_of jobs.now) }
    ensures allowed { OnOk result (All HasImage (map job_of jobs.now)) }
    ensures loaded { IfOk result (λ running.
        system_now running.harts.items (paged_bytes running.memory) ≡ system_of (map job_of jobs.now)) }
{
    let memory = frames(alloc, jobs)?;
    let harts = harts(alloc, jobs)?;
    Ok(RunningHarts { harts, memory })
}
