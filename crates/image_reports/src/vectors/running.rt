// What an image gives on arguments, and what an observer sees of it for all secrets.

ghost use Rattle.std.specs.Prelude.{◌≡◌, ◌<◌, Ok, length, All, IfOk, IfErr};
ghost use Rattle.std.specs.Option.{option_map};
ghost use Rattle.std.specs.String.{string_bytes};
ghost use Rattle.image_reports.specs.Below.{AreWithin, CertifiedEnd, IsWantOfMemory, Means, params_of, ProgramTree};
ghost use Rattle.image_reports.specs.Below.{Results};
ghost use Rattle.image_reports.specs.certificates.Certified.{Certified};
ghost use Rattle.image_reports.specs.vectors.Spelled.{lists_of, publics};
ghost use Rattle.image_reports.specs.vectors.Verdicts.{IsImageOf, wrong_in};

use crate::certificates::{Certificate, Shifts, certify};
use crate::vectors::given::publics;
use crate::vectors::wanted::lists_of;
use hepurita::{RunFault, execute, images_do_what_sources_mean, params};
use image::Image;
use language::{Args, Numbers, Refusal};
use rv_machine::NullRecorder;
use std::alloc::Global;

/// What an image gives on arguments, list by list: what its source means on them.
pub fn outcome_of(alloc: Global, image: &Image, args: &Args) -> Result<Vec<Numbers>, Refusal>
    requires source { (program : ProgramTree) × IsImageOf program image.now }
    requires within { AreWithin (params_of image.now) args.now }
    ensures means { (program : ProgramTree)
        → IsImageOf program image.now
        → IfOk result (λ lists. (results : Results)
        × Means program args.now results
        × (lists.items ≡ lists_of results)) }
    ensures short { IfOk result (λ lists. All (λ list. length list < 65536) lists.items) }
    ensures memory { IfErr result (λ refusal. IsWantOfMemory refusal.rule refusal.place) }
{
    images_do_what_sources_mean();
    match execute(alloc, image, args, &mut NullRecorder) {
        Ok(outcome) => Ok(lists_of(alloc, &outcome)?),
        Err(RunFault::Memory) => Err(Refusal::memory()),
        Err(RunFault::Argument { .. }) => unreachable!(),
        Err(RunFault::Stopped(_)) => unreachable!(),
    }
}

/// What is wrong with what an observer sees of an image on these arguments, for all secrets; `None` where it is the
/// same.
pub fn wrong_of(alloc: Global, image: &Image, args: &Args) -> Result<Option<String>, Refusal>
    requires { AreWithin (params_of image.now) args.now }
    ensures wrong { IfOk result (λ wrong. (end : CertifiedEnd)
        × Certified image.now (publics (params_of image.now) args.now) Shifts.Hidden (Ok end)
        × (option_map string_bytes wrong ≡ wrong_in end)) }
    ensures memory { IfErr result (λ refusal. IsWantOfMemory refusal.rule refusal.place) }
{
    let params = params(alloc, image)?;
    let given = publics(alloc, params.as_slice(), args.as_slice())?;
    match certify(alloc, image, given.as_slice(), Shifts::Hidden) {
        Ok(Certificate::Same { .. }) => Ok(None),
        Ok(Certificate::MayDiffer { entry, .. }) => {
            Ok(Some(format!(in alloc; "may differ at {entry}")?))
        }
        Err(RunFault::Memory) => Err(Refusal::memory()),
        Err(RunFault::Argument { .. }) => unreachable!(),
        Err(RunFault::Stopped(_)) => unreachable!(),
    }
}
