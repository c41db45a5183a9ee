// A source up to what the passes on its size accept: its program, and its export as one body.

ghost use Rattle.std.specs.Prelude.{◌≡◌, List, ℕ, IfOk, IfErr};
ghost use Rattle.hepurita.specs.Below.{flattened, Profile, program_tree, ranged};
ghost use Rattle.hepurita.specs.Built.{Judges, accepts};
ghost use Rattle.hepurita.specs.Flattened.{IsFlattened};
ghost use Rattle.hepurita.specs.Told.{IsRefusalOf};

use crate::judging::flat_of;
use inline::Flat;
use intervals::{Ranged, check_ranges};
use language::{Profile, Program, Refusal};
use std::alloc::Global;
use syntax::parse;

/// A source's program, and its export with the bodies that it calls as one body.
#[derive(Drop)]
pub struct Flattened {
    pub program: Program,
    pub flat: Flat,
}

impl Flattened {
    /// The body with what is counted for it, where its source is accepted; or else the source's refusal, for a range or
    /// for the work.
    pub fn ranged<'f>(&'f self, alloc: Global) -> Result<Ranged<'f>, Refusal>
        ensures accepted { (profile : Profile) (source : List ℕ) (is : IsFlattened profile source self.now)
            → IfOk result (λ counted. (counted ≡ ranged (flattened profile is.before is.export))
            × Judges profile source (accepts (program_tree self.now.program) is.before is.export)) }
        ensures refused { (profile : Profile) (source : List ℕ) → IsFlattened profile source self.now
            → IfErr result (IsRefusalOf profile source) }
    {
        check_ranges(alloc, &self.flat)
    }
}

/// The program of a source that passes the rules on the source itself, on names, types and labels, and on sizes, for an
/// observer of this profile, with its export as one body; or the first refusal.
pub fn flatten(alloc: Global, source: &str, profile: Profile) -> Result<Flattened, Refusal>
    ensures accepted { IfOk result (IsFlattened profile source.now) }
    ensures refused { IfErr result (IsRefusalOf profile source.now) }
{
    let program = parse(alloc, source)?;
    let flat = flat_of(alloc, &program, profile)?;
    Ok(Flattened { program, flat })
}
