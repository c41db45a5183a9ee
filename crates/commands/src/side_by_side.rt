// Harts side by side, as a file says.

ghost use Rattle.std.specs.Prelude.{◌≡◌, ◌⊎◌, ◌≤◌, ◌++◌, ℕ, length, List, map, vec_len, IsTrue, IfOk, IfErr, OnOk};
ghost use Rattle.std.specs.List.{AllZip};
ghost use Rattle.std.specs.String.{string_bytes};
ghost use Rattle.commands.specs.Answered.{Finds, IsRead};
ghost use Rattle.commands.specs.Below.{hart_of, IsPlan, job_of, most_images, params_of};
ghost use Rattle.commands.specs.Failures.{IsReadBy};
ghost use Rattle.commands.specs.Harts.{GivesPlan, IsJobOf, RefusesHart, RefusesHarts, RefusesJobs, RefusesPlan};
ghost use Rattle.commands.specs.Harts.{SaysPlan};
ghost use Rattle.commands.specs.HartsText.{behind, shown_text, ended_line, ended_text, ends_text, harts_text, is_well};
ghost use Rattle.commands.specs.HartsText.{status_of_ends};
ghost use Rattle.commands.specs.OutcomeText.{outcome_text};
ghost use Rattle.commands.specs.Unread.{IsOutOfMemory};

use crate::answer::{Answer, DONE, STOPPED};
use crate::fault::{Fault, FileFault};
use crate::files::Files;
use crate::images::image_with_args;
use crate::outcome;
use command_line::Request;
use harts::{HartEnd, run_harts};
use image::Image;
use input_files::harts_file::{FileJob, HartsPlan, PlanFileFault, read};
use language::{Args, Outcome};
use listing::{lines_of, stop_line};
use rv_machine::{HartObservation, ListHartRecorder, Stop};
use std::alloc::{AllocError, Global};

/// The plan that a file gives, which is read to its end.
fn plan_of<'a, F: Files>(
    alloc: Global,
    file: &'a str,
    files: &mut F,
) -> Result<HartsPlan, Fault<'a>>
    ensures said { IsTrue F.TELLS
        → IfOk result (λ plan. GivesPlan (F.store files.old).contents file.now (map hart_of plan.jobs.items)
        plan.schedule.items) }
    ensures refused { IsTrue F.TELLS → IfErr result (RefusesHarts (F.store files.old).contents file.now) }
    ensures calm { OnOk result (F.store files.new ≡ F.store files.old) }
    ensures counted { IfErr result (λ fault. IsReadBy fault (F.store files.old) (F.store files.new)) }
{
    let Ok(mut source) = files.open(file) else {
        return Err(Fault::File(FileFault::CannotRead(file)));
    };
    let plan = read(alloc, &mut source);
    files.close(source);
    match plan {
        Ok(plan) => Ok(plan),
        Err(fault) => Err(match fault {
            PlanFileFault::Read => Fault::File(FileFault::CannotRead(file)),
            PlanFileFault::NotUtf8 => Fault::File(FileFault::NotUtf8(file)),
            PlanFileFault::Plan(why) => Fault::Plan(why),
        }),
    }
}

/// Runs the harts that a file says: what an observer sees of them and how each ended, as lines, and the exit status.
/// Their jobs are put into `jobs`.
pub fn run_file<'a, F: Files>(
    alloc: Global,
    file: &'a str,
    jobs: &'a mut Vec<FileJob>,
    files: &mut F,
) -> Result<Answer, Fault<'a>>
    ensures finds { IsTrue F.TELLS → Finds (Request.Harts file.entry) (F.store files.old).contents result }
    ensures read { IsRead result (F.store files.old) (F.store files.new) }
{
    let plan = plan_of(alloc, file, files)?;
    *jobs = plan.jobs;
    run_side_by_side(alloc, jobs.as_slice(), plan.schedule.as_slice(), files)
}

/// Runs harts by this schedule: what an observer sees of each step and how each hart ended, as lines, and the exit
/// status. They are refused by the first hart whose image or arguments are faulty, or by what `run_harts` refuses.
fn run_side_by_side<'a, F: Files>(
    alloc: Global,
    named: &'a [FileJob],
    schedule: &[u8],
    files: &mut F,
) -> Result<Answer, Fault<'a>>
    requires { length named.now ≤ most_images }
    ensures said { IsTrue F.TELLS → IfOk result (λ said. (plan : List ℕ)
        → IsPlan plan (map hart_of named.now) schedule.now
        → SaysPlan (F.store files.old).contents plan said.text.items said.status) }
    ensures refused { IsTrue F.TELLS → IfErr result (λ fault. (plan : List ℕ)
        → IsPlan plan (map hart_of named.now) schedule.now
        → RefusesPlan (F.store files.old).contents plan fault) }
    ensures read { IsRead result (F.store files.old) (F.store files.new) }
{
    let jobs = load_jobs(alloc, named, files)?;
    let mut recorder = ListHartRecorder::new(alloc);
    let ends = run_harts(alloc, jobs.as_slice(), schedule, &mut recorder)?;
    let text = list_harts(alloc, jobs.as_slice(), recorder.list(), ends.as_slice())?;
    let status = status_of(ends.as_slice());
    Ok(Answer { text, status })
}

/// Texts, lent.
fn lent<'a>(alloc: Global, texts: &'a [String]) -> Result<Vec<&'a str>, AllocError>
    ensures { IfOk result (λ lent. map (λ text. text.now) lent.items ≡ map string_bytes texts.now) }
{
    let mut lent = Vec::new(alloc);
    'texts: for text in texts {
        lent.push(text.as_str())?;
    }
    Ok(lent)
}

/// The images of harts and their arguments, hart by hart, or the fault of the first hart that has one.
fn load_jobs<'a, F: Files>(
    alloc: Global,
    jobs: &'a [FileJob],
    files: &mut F,
) -> Result<Vec<(Image, Args)>, Fault<'a>>
    ensures count { IfOk result (λ loaded. vec_len loaded ≡ length jobs.now) }
    ensures said { IsTrue F.TELLS
        → IfOk result (λ loaded. AllZip (IsJobOf (F.store files.old).contents) (map hart_of jobs.now)
        (map job_of loaded.items)) }
    ensures refused { IsTrue F.TELLS → IfErr result (RefusesJobs (F.store files.old).contents (map hart_of jobs.now)) }
    ensures read { IsRead result (F.store files.old) (F.store files.new) }
{
    let mut loaded = Vec::new(alloc);
    for job in jobs {
        let (image, args) = load_job(alloc, job, files)?;
        loaded.push((image, args))?;
    }
    Ok(loaded)
}

/// The image of a hart and its arguments.
fn load_job<'a, F: Files>(
    alloc: Global,
    job: &'a FileJob,
    files: &mut F,
) -> Result<(Image, Args), Fault<'a>>
    ensures said { IsTrue F.TELLS
        → IfOk result (λ loaded. IsJobOf (F.store files.old).contents (hart_of job.now) (job_of loaded)) }
    ensures refused { IsTrue F.TELLS → IfErr result (λ fault.
        RefusesHart (F.store files.old).contents (hart_of job.now) fault ⊎ IsOutOfMemory fault) }
    ensures read { IsRead result (F.store files.old) (F.store files.new) }
{
    let words = lent(alloc, job.arguments.as_slice())?;
    let (image, _, args) = image_with_args(alloc, job.path.as_str(), words.as_slice(), files)?;
    Ok((image, args))
}

/// The lines of what steps showed, in their order, and then those of how each hart ended.
fn list_harts(
    alloc: Global,
    jobs: &[(Image, Args)],
    seen: &[HartObservation],
    ends: &[HartEnd],
) -> Result<Vec<u8>, AllocError>
    requires { length jobs.now ≤ most_images }
    ensures { IfOk result (λ text. text.items ≡ harts_text (map job_of jobs.now) seen.now ends.now) }
{
    let mut text = Vec::new(alloc);
    push_shown(alloc, &mut text, seen)?;
    push_ends(alloc, &mut text, jobs, ends)?;
    Ok(text)
}

/// Puts the lines of what steps showed at the end of a text.
fn push_shown(alloc: Global, text: &mut Vec<u8>, seen: &[HartObservation]) -> Result<(), AllocError>
    ensures { OnOk result (text.new.items ≡ text.old.items ++ shown_text seen.now) }
{
    for step in seen {
        let lines = lines_of(&step.observation);
        push_lines(alloc, text, step.hart, lines.as_slice())?;
    }
    Ok(())
}

/// Puts how each hart ended at the end of a text.
fn push_ends(
    alloc: Global,
    text: &mut Vec<u8>,
    jobs: &[(Image, Args)],
    ends: &[HartEnd],
) -> Result<(), AllocError>
    requires { length jobs.now ≤ most_images }
    ensures { OnOk result (text.new.items ≡ text.old.items ++ ends_text 0 (map job_of jobs.now) ends.now) }
{
    for (hart, end) in ends.iter().enumerate() {
        if let Some((image, _)) = jobs.get(hart) {
            push_end(alloc, text, hart as u8, image, end)?;
        }
    }
    Ok(())
}

/// Puts how a hart ended at the end of a text: its stop, and after ECALL its outcome, else that it is still going.
fn push_end(
    alloc: Global,
    text: &mut Vec<u8>,
    hart: u8,
    image: &Image,
    end: &HartEnd,
) -> Result<(), AllocError>
    ensures { OnOk result (text.new.items ≡ text.old.items
        ++ behind hart (ended_line end.now.stop)
        ++ behind hart (ended_text image.now end.now.outcome)) }
{
    push_stop(alloc, text, hart, end.stop)?;
    match &end.outcome {
        Some(outcome) => push_outcome(alloc, text, hart, image, outcome),
        None => Ok(()),
    }
}

/// Puts the line of a hart's stop at the end, or that it is still going.
fn push_stop(
    alloc: Global,
    text: &mut Vec<u8>,
    hart: u8,
    stop: Option<Stop>,
) -> Result<(), AllocError>
    ensures { OnOk result (text.new.items ≡ text.old.items ++ behind hart (ended_line stop)) }
{
    match stop {
        Some(stop) => push_lines(alloc, text, hart, stop_line(stop).as_slice()),
        None => push_lines(alloc, text, hart, b"going\n"),
    }
}

/// Puts the lines of a hart's outcome at the end.
fn push_outcome(
    alloc: Global,
    text: &mut Vec<u8>,
    hart: u8,
    image: &Image,
    outcome: &Outcome,
) -> Result<(), AllocError>
    ensures { OnOk result (text.new.items
        ≡ text.old.items ++ behind hart (outcome_text (params_of image.now) outcome.now)) }
{
    let params = hepurita::params(alloc, image)?;
    let lines = outcome::text_of(alloc, params.as_slice(), outcome)?;
    push_lines(alloc, text, hart, lines.as_bytes())
}

/// Puts lines of a hart at the end of a text, each behind its number and a blank.
fn push_lines(alloc: Global, text: &mut Vec<u8>, hart: u8, lines: &[u8]) -> Result<(), AllocError>
    ensures { OnOk result (text.new.items ≡ text.old.items ++ behind hart lines.now) }
{
    let front = format!(in alloc; "{hart} ")?;
    let mut begins = true;
    for byte in lines {
        if begins {
            text.extend_from_slice(front.as_bytes())?;
        }
        text.push(*byte)?;
        begins = *byte == b'\n';
    }
    Ok(())
}

/// Whether a hart has not stopped otherwise than by ECALL.
fn is_well(stop: Option<Stop>) -> bool
    ensures { result ≡ is_well stop }
{
    match stop {
        None => true,
        Some(stop) => stop == Stop::Ecall,
    }
}

/// The exit status of harts that ended so.
fn status_of(ends: &[HartEnd]) -> u8
    ensures exact { result ≡ status_of_ends ends.now }
    ensures known { result ≤ 5 }
{
    if ends.iter().all(|end| is_well(end.stop)) {
        DONE
    } else {
        STOPPED
    }
}
