// Runs of an image that say on standard error how many steps they have made, where that is asked for.

ghost use Rattle.std.specs.Prelude.{◌≡◌, ◌≢◌, ◌⊎◌, false, true, [], Err, IsTrue, OnOk, OnErr};
ghost use Rattle.commands.specs.Below.{Certified, collected, Executed, HasLines, IsTold, Paired, Reaches};
ghost use Rattle.commands.specs.Progress.{RunGoesOn, PairGoesOn, CertificateGoesOn, RunTells, Tells};

use crate::step_counts::{put_steps, run_counting};
use command_line::StepOptions;
use hepurita::{
    RunFault, answer, code, execute, fault_of_both, first_fault, load, pair, result_space,
};
use image::Image;
use image_reports::certificates::{Certificate, Shifts, certify, certify_telling};
use language::{Arg, Args, Outcome};
use run_reports::progress::{compare_telling, run_in_pieces};
use rv_machine::{NullRecorder, Pairing, Stop};
use std::alloc::Global;
use streams::Sink;

/// Runs an image on arguments as `execute` does, and a line goes out behind each so many steps after which the run goes
/// on.
fn execute_telling<E: Sink>(
    alloc: Global,
    image: &Image,
    args: &Args,
    err: &mut E,
) -> Result<Outcome, RunFault>
    ensures executed { Executed image.now args.now false [] result [] }
    ensures calm { result ≢ Err (RunFault.Stopped Stop.RecorderRefused) }
    ensures told { IsTrue E.TELLS
        → OnOk result (IsTold HasLines (RunGoesOn image.now args.now) (collected (E.taken err.old) (E.failures err.old))
        (collected (E.taken err.new) (E.failures err.new))) }
    ensures part { IsTrue E.TELLS
        → OnErr result (IsTold Reaches (RunGoesOn image.now args.now) (collected (E.taken err.old) (E.failures err.old))
        (collected (E.taken err.new) (E.failures err.new))) }
{
    if let Some(fault) = first_fault(image, args) {
        return Err(RunFault::from(fault));
    }
    let code = code(alloc, image)?;
    let space = result_space(alloc, image)?;
    let mut loaded = load(alloc, image, args)?;
    let stop = run_in_pieces(&code, &mut loaded, err);
    answer(image, space, stop, &loaded.memory)
}

/// The same, and once the run has stopped the line of its steps goes out. Lines of progress go out where they are asked
/// for.
fn execute_counting<E: Sink>(
    alloc: Global,
    image: &Image,
    args: &Args,
    progress: bool,
    err: &mut E,
) -> Result<Outcome, RunFault>
    ensures executed { Executed image.now args.now false [] result [] }
    ensures calm { result ≢ Err (RunFault.Stopped Stop.RecorderRefused) }
    ensures told { IsTrue E.TELLS
        → OnOk result (RunTells HasLines (record { progress = progress; steps = true }) image.now args.now
        (collected (E.taken err.old) (E.failures err.old)) (collected (E.taken err.new) (E.failures err.new))) }
    ensures part { IsTrue E.TELLS → OnErr result ((err.new ≡ err.old)
        ⊎ RunTells Reaches (record { progress = progress; steps = true }) image.now args.now
        (collected (E.taken err.old) (E.failures err.old)) (collected (E.taken err.new) (E.failures err.new))) }
{
    if let Some(fault) = first_fault(image, args) {
        return Err(RunFault::from(fault));
    }
    let code = code(alloc, image)?;
    let space = result_space(alloc, image)?;
    let mut loaded = load(alloc, image, args)?;
    let budget = loaded.steps_left;
    let stop = run_counting(&code, &mut loaded, progress, err);
    put_steps(err, budget - loaded.steps_left);
    answer(image, space, stop, &loaded.memory)
}

/// Runs an image on arguments, and says how many steps it has made where that is asked for.
pub fn outcome_of<E: Sink>(
    alloc: Global,
    image: &Image,
    args: &Args,
    options: StepOptions,
    err: &mut E,
) -> Result<Outcome, RunFault>
    ensures executed { Executed image.now args.now false [] result [] }
    ensures calm { result ≢ Err (RunFault.Stopped Stop.RecorderRefused) }
    ensures told { IsTrue E.TELLS
        → OnOk result (RunTells HasLines options image.now args.now
        (collected (E.taken err.old) (E.failures err.old)) (collected (E.taken err.new) (E.failures err.new))) }
    ensures part { IsTrue E.TELLS → OnErr result ((err.new ≡ err.old)
        ⊎ RunTells Reaches options image.now args.now
        (collected (E.taken err.old) (E.failures err.old)) (collected (E.taken err.new) (E.failures err.new))) }
{
    if options.steps {
        execute_counting(alloc, image, args, options.progress, err)
    } else if options.progress {
        execute_telling(alloc, image, args, err)
    } else {
        execute(alloc, image, args, &mut NullRecorder)
    }
}

/// Compares two runs of an image as `pair` does, and a line goes out behind each so many steps of both after which both
/// go on.
pub fn pair_telling<E: Sink>(
    alloc: Global,
    image: &Image,
    one: &Args,
    other: &Args,
    err: &mut E,
) -> Result<Pairing, RunFault>
    ensures paired { Paired image.now one.now other.now result }
    ensures told { IsTrue E.TELLS
        → OnOk result (IsTold HasLines (PairGoesOn image.now one.now other.now)
        (collected (E.taken err.old) (E.failures err.old)) (collected (E.taken err.new) (E.failures err.new))) }
    ensures untold { OnErr result (err.new ≡ err.old) }
{
    if let Some(fault) = fault_of_both(image, one, other) {
        return Err(RunFault::from(fault));
    }
    let code = code(alloc, image)?;
    let mut one = load(alloc, image, one)?;
    let mut other = load(alloc, image, other)?;
    Ok(compare_telling(alloc, &code, &mut one, &mut other, err))
}

/// Compares two runs of an image, and says how many steps both have made where that is asked for.
pub fn pairing_of<E: Sink>(
    alloc: Global,
    image: &Image,
    one: &Args,
    other: &Args,
    progress: bool,
    err: &mut E,
) -> Result<Pairing, RunFault>
    ensures paired { Paired image.now one.now other.now result }
    ensures told { IsTrue E.TELLS
        → OnOk result (Tells HasLines progress (PairGoesOn image.now one.now other.now)
        (collected (E.taken err.old) (E.failures err.old)) (collected (E.taken err.new) (E.failures err.new))) }
    ensures untold { OnErr result (err.new ≡ err.old) }
{
    if progress {
        pair_telling(alloc, image, one, other, err)
    } else {
        pair(alloc, image, one, other)
    }
}

/// Certifies an image, and says how many steps its run has made where that is asked for.
pub fn certificate_of<E: Sink>(
    alloc: Global,
    image: &Image,
    given: &[Option<Arg>],
    shifts: Shifts,
    progress: bool,
    err: &mut E,
) -> Result<Certificate, RunFault>
    ensures certified { Certified image.now given.now shifts result }
    ensures told { IsTrue E.TELLS
        → OnOk result (Tells HasLines progress (CertificateGoesOn image.now given.now shifts)
        (collected (E.taken err.old) (E.failures err.old)) (collected (E.taken err.new) (E.failures err.new))) }
    ensures untold { OnErr result (err.new ≡ err.old) }
{
    if progress {
        certify_telling(alloc, image, given, shifts, err)
    } else {
        certify(alloc, image, given, shifts)
    }
}
