// The code of a body: plain, or optimised, where that is within the limit on words.

ghost use Rattle.std.specs.Prelude.{◌≡◌, IfOk, IfErr};
ghost use Rattle.compilation.specs.Below.{fields_of, IsGenerated, IsImage, IsRemoved, IsWantOfMemory, straight_of};
ghost use Rattle.compilation.specs.Below.{StraightProgram};
ghost use Rattle.compilation.specs.Begun.{FollowsAnywhere};
ghost use Rattle.compilation.specs.Needs.{needs_as, plain_needs};
ghost use Rattle.compilation.specs.CodeFor.{IsCodeFor};
ghost use Rattle.compilation.specs.Exact.{needs_for, code_for};

use crate::generated::Generated;
use crate::needs::plain_needs;
use crate::optimised::Optimisation;
use crate::optimising::{rolled, unrolled};
use branch_removal::{Straight, remove};
use codegen::{Code, generate};
use intervals::Ranged;
use language::Refusal;
use std::alloc::Global;

/// The plain code of a straight program. Only memory refuses it.
fn plain_code(alloc: Global, straight: &Straight<'_>) -> Result<Generated, Refusal>
    ensures generated { IfOk result (IsCodeFor straight.now) }
    ensures exact { IfOk result (λ made. made.code ≡ fields_of straight.now) }
    ensures needs { IfOk result (λ made. needs_as made.needs ≡ plain_needs straight.now) }
    ensures allowed { IfOk result (λ made. IsImage made.code) }
    ensures memory { IfErr result (λ refusal. IsWantOfMemory refusal.rule refusal.place) }
{
    let code = generate(alloc, straight)?;
    let needs = plain_needs(alloc, straight.code())?;
    Ok(Generated { code, needs })
}

/// The optimised code of a straight program with its loops, where that is within the limit on words, or else its plain
/// code. Only memory refuses it.
fn small_code(alloc: Global, straight: &Straight<'_>) -> Result<Generated, Refusal>
    ensures generated { IfOk result (IsCodeFor straight.now) }
    ensures exact { IfOk result (λ made. made.code ≡ code_for Optimisation.Small straight.now) }
    ensures needs { IfOk result (λ made. needs_as made.needs ≡ needs_for Optimisation.Small straight.now) }
    ensures allowed { IfOk result (λ made. IsImage made.code) }
    ensures memory { IfErr result (λ refusal. IsWantOfMemory refusal.rule refusal.place) }
{
    if let Some(code) = rolled(alloc, straight.code())? {
        return Ok(code);
    }
    plain_code(alloc, straight)
}

/// The optimised code of a straight program with its loops unrolled, where that is within the limit on words, or else
/// its small code. Only memory refuses it.
fn fast_code(alloc: Global, straight: &Straight<'_>) -> Result<Generated, Refusal>
    ensures generated { IfOk result (IsCodeFor straight.now) }
    ensures exact { IfOk result (λ made. made.code ≡ code_for Optimisation.On straight.now) }
    ensures needs { IfOk result (λ made. needs_as made.needs ≡ needs_for Optimisation.On straight.now) }
    ensures allowed { IfOk result (λ made. IsImage made.code) }
    ensures memory { IfErr result (λ refusal. IsWantOfMemory refusal.rule refusal.place) }
{
    if let Some(code) = unrolled(alloc, straight.code())? {
        return Ok(code);
    }
    small_code(alloc, straight)
}

/// The code of a body with what is counted for it, plain or optimised, and what its frame has to be. Only memory
/// refuses it.
pub fn generated_for(
    alloc: Global,
    ranged: &Ranged<'_>,
    optimisation: Optimisation,
) -> Result<Generated, Refusal>
    ensures generated { IfOk result (λ made. (straight : StraightProgram) × IsRemoved ranged.now straight
        × IsGenerated straight made.code × FollowsAnywhere straight made.code (needs_as made.needs)) }
    ensures exact { IfOk result (λ made. made.code ≡ code_for optimisation (straight_of ranged.now)) }
    ensures needs { IfOk result (λ made. needs_as made.needs ≡ needs_for optimisation (straight_of ranged.now)) }
    ensures allowed { IfOk result (λ made. IsImage made.code) }
    ensures memory { IfErr result (λ refusal. IsWantOfMemory refusal.rule refusal.place) }
{
    let straight = remove(alloc, ranged)?;
    match optimisation {
        Optimisation::Off => plain_code(alloc, &straight),
        Optimisation::On => fast_code(alloc, &straight),
        Optimisation::Small => small_code(alloc, &straight),
    }
}

/// The code of a body with what is counted for it, plain or optimised. Only memory refuses it.
pub fn code_of(
    alloc: Global,
    ranged: &Ranged<'_>,
    optimisation: Optimisation,
) -> Result<Code, Refusal>
    ensures generated { IfOk result (λ code. (straight : StraightProgram)
        × IsRemoved ranged.now straight × IsGenerated straight code) }
    ensures exact { IfOk result (λ code. code ≡ code_for optimisation (straight_of ranged.now)) }
    ensures allowed { IfOk result IsImage }
    ensures memory { IfErr result (λ refusal. IsWantOfMemory refusal.rule refusal.place) }
{
    let Generated { code, .. } = generated_for(alloc, ranged, optimisation)?;
    Ok(code)
}
