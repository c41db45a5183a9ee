// A source, compiled: the value from which all is taken that is made of an accepted source.

ghost use Rattle.std.specs.Prelude.{◌≡◌, ℕ, List, IfOk, IfErr};
ghost use Rattle.hepurita.specs.Below.{ProcedureTree, Profile, program_tree};
ghost use Rattle.compilation.specs.Needs.{needs_as};
ghost use Rattle.hepurita.specs.Built.{IsCompilation};
ghost use Rattle.compilation.specs.Exact.{frame_needs_for};
ghost use Rattle.hepurita.specs.Flattened.{IsFlattened};
ghost use Rattle.hepurita.specs.Linked.{StartsAnywhere};
ghost use Rattle.hepurita.specs.Told.{IsRefusalOf};

use crate::flattening::{Flattened, flatten};
use codegen::Code;
use compilation::{FrameNeeds, Generated, Optimisation, generated_for};
use language::{Profile, Program, Refusal};
use std::alloc::Global;

/// The code of a source's export, where the source is accepted, or the first refusal.
fn code_in(
    alloc: Global,
    flattened: &Flattened,
    optimisation: Optimisation,
) -> Result<Generated, Refusal>
    ensures compiled { (profile : Profile) (source : List ℕ) (is : IsFlattened profile source flattened.now)
        → IfOk result (λ made.
        IsCompilation optimisation profile source (program_tree flattened.now.program) is.before is.export made.code) }
    ensures started { (profile : Profile) (source : List ℕ) (is : IsFlattened profile source flattened.now)
        → IfOk result (λ made.
        StartsAnywhere (program_tree flattened.now.program) is.export made.code (needs_as made.needs)
        × (needs_as made.needs ≡ frame_needs_for optimisation profile is.before is.export)) }
    ensures refused { (profile : Profile) (source : List ℕ) → IsFlattened profile source flattened.now
        → IfErr result (IsRefusalOf profile source) }
{
    let ranged = flattened.ranged(alloc)?;
    generated_for(alloc, &ranged, optimisation)
}

/// An accepted source, compiled: its program, and the code of its export.
#[derive(Drop)]
pub struct Compiled {
    pub program: Program,
    pub code: Code,
    /// What the code needs of its frame where it begins.
    pub needs: FrameNeeds,
}

/// A source that is accepted for an observer of this profile, compiled to plain or to optimised code, or the first
/// refusal. Passes are asked in the order: the source itself; names, types and labels; sizes; ranges; work. Which
/// sources are accepted, and what the others are refused for, does not depend on the optimisation.
///
/// Either image, run on any arguments within the parameter types, gives what the source means, within its
/// stated steps and its frame; and on arguments that are equal where they are public the observer
/// sees one and the same.
pub fn compile_with(
    alloc: Global,
    source: &str,
    profile: Profile,
    optimisation: Optimisation,
) -> Result<Compiled, Refusal>
    ensures compiled { IfOk result (λ made. (before : List ProcedureTree) × (export : ProcedureTree)
        × IsCompilation optimisation profile source.now (program_tree made.program) before export made.code) }
    ensures started { IfOk result (λ made. (before : List ProcedureTree) × (export : ProcedureTree)
        × IsCompilation optimisation profile source.now (program_tree made.program) before export made.code
        × StartsAnywhere (program_tree made.program) export made.code (needs_as made.needs)
        × (needs_as made.needs ≡ frame_needs_for optimisation profile before export)) }
    ensures refused { IfErr result (IsRefusalOf profile source.now) }
{
    let flattened = flatten(alloc, source, profile)?;
    let Generated { code, needs } = code_in(alloc, &flattened, optimisation)?;
    let Flattened { program, .. } = flattened;
    Ok(Compiled {
        program,
        code,
        needs,
    })
}
