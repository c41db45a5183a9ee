// A source, compiled to the bytes of an image.

ghost use Rattle.std.specs.Prelude.{◌≡◌, ℕ, List, IfOk, IfErr};
ghost use Rattle.hepurita.specs.Below.{Place, ProcedureTree, ProgramTree, Rule};
ghost use Rattle.hepurita.specs.Built.{Judgement, Judges, IsBuilt, accepts, refuses};
ghost use Rattle.hepurita.specs.Told.{IsRefusalOf};

use crate::compiling::compile_with;
use compilation::Optimisation;
use image::write;
use language::{Profile, Refusal};
use std::alloc::Global;
use syntax::one_answer_for_a_source;

/// The bytes of the plain image of a source that is accepted for an observer of profile 1, or the first refusal.
pub fn build(alloc: Global, source: &str) -> Result<Vec<u8>, Refusal>
    ensures accepted { IfOk result (λ bytes. IsBuilt Optimisation.Off Profile.P1 source.now bytes.items) }
    ensures refused { IfErr result (IsRefusalOf Profile.P1 source.now) }
{
    build_as(alloc, source, Profile::P1)
}

/// The bytes of the plain image of a source that is accepted for an observer of this profile, or the first refusal.
pub fn build_as(alloc: Global, source: &str, profile: Profile) -> Result<Vec<u8>, Refusal>
    ensures accepted { IfOk result (λ bytes. IsBuilt Optimisation.Off profile source.now bytes.items) }
    ensures refused { IfErr result (IsRefusalOf profile source.now) }
{
    build_with(alloc, source, profile, Optimisation::Off)
}

/// The bytes of the image, plain or optimised, of a source that is accepted for an observer of this profile, or the
/// first refusal, as of `compile_with`.
pub fn build_with(
    alloc: Global,
    source: &str,
    profile: Profile,
    optimisation: Optimisation,
) -> Result<Vec<u8>, Refusal>
    ensures accepted { IfOk result (λ bytes. IsBuilt optimisation profile source.now bytes.items) }
    ensures refused { IfErr result (IsRefusalOf profile source.now) }
{
    let compiled = compile_with(alloc, source, profile, optimisation)?;
    write(alloc, &compiled.code)
}

/// A source is not both accepted and refused, for one observer.
pub fn accepted_or_refused()
    ensures { (profile : Profile) (source : List ℕ) (program : ProgramTree) (before : List ProcedureTree)
        (export : ProcedureTree) (rule : Rule) (place : Place)
        → Judges profile source (accepts program before export)
        → Judges profile source (refuses rule place)
        → ⊥ }
{
    one_answer_for_a_source();
}

/// For one observer a source is refused for one rule at one place.
pub fn one_refusal()
    ensures { (profile : Profile) (source : List ℕ) (rule rule' : Rule) (place place' : Place)
        → Judges profile source (refuses rule place)
        → Judges profile source (refuses rule' place')
        → (rule ≡ rule') × (place ≡ place') }
{
    one_answer_for_a_source();
}

/// Each source is accepted or refused, for each observer: with the laws above it has exactly one judgement.
pub fn each_source_is_judged()
    ensures { (profile : Profile) (source : List ℕ) → (judgement : Judgement) × Judges profile source judgement }
{}
