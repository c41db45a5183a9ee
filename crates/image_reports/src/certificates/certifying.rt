// One run of an image for all arguments that have the given values.

ghost use Rattle.std.specs.Prelude.{◌≡◌, IsTrue, OnOk, OnErr};
ghost use Rattle.image_reports.specs.certificates.Certified.{Certified};
ghost use Rattle.image_reports.specs.certificates.KnownImage.{known_at};
ghost use Rattle.image_reports.specs.Below.{code_at, code_base, frame_base, GoesOnKnown, HasLines};
ghost use Rattle.image_reports.specs.Below.{image_program, IsTold};
ghost use Rattle.streams.specs.Puts.{collected};

use crate::certificates::faults::first_fault;
use crate::certificates::loading::load_given;
use certified_runs::{CertifiedEnd as Certificate, Shifts, certify as certify_run};
use hepurita::{RunFault, code};
use image::Image;
use language::Arg;
use run_reports::progress::certify_in_pieces;
use std::alloc::Global;
use streams::Sink;

/// Runs an image once for all arguments that have the given values, and answers whether an observer sees the same of
/// all of them. An argument that is not given stands for every value of its type; it may be that of a secret parameter
/// alone. Where shifts are seen, the observer also sees the amount of each shift by a register. What is given is
/// refused by its first fault, before memory is asked for, and once the image is loaded the run takes no memory.
pub fn certify(
    alloc: Global,
    image: &Image,
    given: &[Option<Arg>],
    shifts: Shifts,
) -> Result<Certificate, RunFault>
    ensures { Certified image.now given.now shifts result }
{
    if let Some(fault) = first_fault(image.slots(), given) {
        return Err(RunFault::from(fault));
    }
    let code = code(alloc, image)?;
    let mut loaded = load_given(alloc, image, given, shifts)?;
    Ok(certify_run(&code, &mut loaded.run, &mut loaded.known))
}

/// The same, and a line goes out behind each so many steps after which the run goes on.
pub fn certify_telling<E: Sink>(
    alloc: Global,
    image: &Image,
    given: &[Option<Arg>],
    shifts: Shifts,
    err: &mut E,
) -> Result<Certificate, RunFault>
    ensures certified { Certified image.now given.now shifts result }
    ensures told { IsTrue E.TELLS
        → OnOk result (IsTold HasLines
        (GoesOnKnown (image_program (code_at code_base image.now)) image.now.max_steps
        (known_at code_base frame_base image.now given.now shifts))
        (collected (E.taken err.old) (E.failures err.old))
        (collected (E.taken err.new) (E.failures err.new))) }
    ensures untold { OnErr result (err.new ≡ err.old) }
{
    if let Some(fault) = first_fault(image.slots(), given) {
        return Err(RunFault::from(fault));
    }
    let code = code(alloc, image)?;
    let mut loaded = load_given(alloc, image, given, shifts)?;
    Ok(certify_in_pieces(&code, &mut loaded.run, &mut loaded.known, err))
}
