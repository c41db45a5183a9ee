// Why what an observer sees of an image may differ.

ghost use Rattle.std.specs.Prelude.{ℕ, Ok, IfOk};
ghost use Rattle.image_reports.specs.Below.{MayDiffer};
ghost use Rattle.image_reports.specs.certificates.Certified.{Certified};
ghost use Rattle.image_reports.specs.certificate_explanations.Explained.{ExplainsCertificate};

use crate::certificate_explanations::lines::lines;
use crate::certificates::load_given;
use certified_runs::Shifts;
use hepurita::code;
use image::Image;
use language::Arg;
use run_reports::origins::trace;
use std::alloc::{AllocError, Global};

/// The lines that explain why what an observer sees of an image may differ for some values of the arguments that are
/// not given: for each register that the instruction of the step reads and that is unknown, since which load it is. The
/// certified run is made again.
pub fn explain_certificate(
    alloc: Global,
    image: &Image,
    given: &[Option<Arg>],
    shifts: Shifts,
) -> Result<Vec<u8>, AllocError>
    requires { (entry pc : ℕ) × Certified image.now given.now shifts (Ok (MayDiffer entry pc)) }
    ensures { IfOk result (λ text. ExplainsCertificate image.now given.now shifts text.items) }
{
    let code = code(alloc, image)?;
    let mut loaded = load_given(alloc, image, given, shifts)?;
    let Some(undecided) = trace(&code, &mut loaded.run, &mut loaded.known) else {
        unreachable!();
    };
    lines(alloc, image, &undecided)
}
