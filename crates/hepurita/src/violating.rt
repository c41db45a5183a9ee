// All that a source violates of the rules that the pass asks that refuses it.

ghost use Rattle.std.specs.Prelude.{◌≡◌, ◌∷◌, ℕ, List, [], IfOk, IfErr};
ghost use Rattle.hepurita.specs.Below.{accepted, IsRefusedAs, IsWantOfMemory, ProcedureTree, program_tree};
ghost use Rattle.hepurita.specs.Below.{ProgramTree, Reads, TellsOf};
ghost use Rattle.hepurita.specs.Built.{accepts, Judges};
ghost use Rattle.hepurita.specs.Listed.{ListsProgram, ListsViolations};
ghost use Rattle.hepurita.specs.Told.{IsRefusalOf};

use inline::{inline, violations as size_violations};
use intervals::violations as range_violations;
use labels::{check_as, violations as type_violations};
use language::{Profile, Program, Refusal, Violation};
use std::alloc::Global;
use syntax::parse;

/// The refusal of a text that is no program as its only violation; or want of memory.
fn alone(alloc: Global, refusal: Refusal) -> Result<Vec<Violation>, Refusal>
    ensures found { (profile : Profile) (source : List ℕ) → IsRefusedAs (Reads source) refusal
        → IfOk result (λ found. ListsViolations profile source found.items) }
    ensures memory { (source : List ℕ) → IsRefusedAs (Reads source) refusal
        → IfErr result (λ fault. IsWantOfMemory fault.rule fault.place) }
{
    let Some(place) = refusal.place else {
        return Err(refusal);
    };
    let mut found = Vec::new(alloc);
    found.push(Violation {
        place,
        rule: refusal.rule,
        why: refusal.why,
    })?;
    Ok(found)
}

/// All that a program violates of the rules that the pass asks that refuses it, in their order. Only memory fails.
fn violations_of(
    alloc: Global,
    program: &Program,
    profile: Profile,
) -> Result<Vec<Violation>, Refusal>
    ensures found { (source : List ℕ) → Reads source (accepted (program_tree program.now))
        → IfOk result (λ found. ListsProgram profile (program_tree program.now) found.items) }
    ensures memory { IfErr result (λ refusal. IsWantOfMemory refusal.rule refusal.place) }
{
    let found = type_violations(alloc, program, profile)?;
    if !found.is_empty() {
        return Ok(found);
    }
    let checked = check_as(alloc, program, profile)?;
    let found = size_violations(alloc, &checked)?;
    if !found.is_empty() {
        return Ok(found);
    }
    let flat = inline(alloc, &checked)?;
    Ok(range_violations(alloc, &flat)?)
}

/// All that a source violates, for an observer, of the rules that the pass asks that refuses it, in their order: none
/// where it is accepted, and else first what `judge_as` refuses it for. Only memory fails.
pub fn violations(alloc: Global, source: &str, profile: Profile) -> Result<Vec<Violation>, Refusal>
    ensures found { IfOk result (λ found. ListsViolations profile source.now found.items) }
    ensures memory { IfErr result (λ refusal. IsWantOfMemory refusal.rule refusal.place) }
{
    match parse(alloc, source) {
        Ok(program) => violations_of(alloc, &program, profile),
        Err(refusal) => alone(alloc, refusal),
    }
}

/// Where nothing is listed of a source it is accepted; and else the source's refusal is the one that tells of the first
/// that is listed.
pub fn listed_violations_are_judged()
    ensures accepted { (profile : Profile) (source : List ℕ) → ListsViolations profile source []
        → (program : ProgramTree) × (before : List ProcedureTree) × (export : ProcedureTree)
        × Judges profile source (accepts program before export) }
    ensures refused { (profile : Profile) (source : List ℕ) (refusal : Refusal) (first : Violation)
        (others : List Violation) → ListsViolations profile source (first ∷ others) → TellsOf refusal first
        → IsRefusalOf profile source refusal }
{}
