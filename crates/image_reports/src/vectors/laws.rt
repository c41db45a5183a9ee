// What is said of a vector is exact.

ghost use Rattle.std.specs.Prelude.{◌≡◌, ℕ, ◌+◌, List, Option, length};
ghost use Rattle.image_reports.specs.Below.{Fields, ProgramTree};
ghost use Rattle.image_reports.specs.vectors.Lines.{NamedVector};
ghost use Rattle.image_reports.specs.vectors.Verdicts.{IsVerdict, Tried};

use crate::certificates::certifications_agree;
use hepurita::readings_agree;

/// Of a vector one thing is said, or nothing: it passes, or it fails for one reason. Each vector is counted once.
pub fn verdicts_are_exact()
    ensures one { (program : ProgramTree) (image : Fields) (vector : NamedVector) (one other : Option (List ℕ))
        → IsVerdict program image vector one
        → IsVerdict program image vector other
        → one ≡ other }
    ensures counted { (program : ProgramTree) (image : Fields) (vectors : List NamedVector) (passes failures : ℕ)
        (text : List ℕ)
        → Tried program image vectors passes failures text
        → passes + failures ≡ length vectors }
{
    readings_agree();
    certifications_agree();
}
