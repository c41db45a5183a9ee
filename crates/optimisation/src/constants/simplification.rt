ghost use Rattle.std.specs.Prelude.{◌≡◌, [], IfErr, IfOk, IfSome};
ghost use Rattle.optimisation.specs.Below.{checked, IsReplaced, IsWantOfMemory};
ghost use Rattle.optimisation.specs.constants.Exact.{simplified_of, unrolled_of};
ghost use Rattle.optimisation.specs.constants.private.Simplification.{simplified_program};

use crate::constants::choice::Choice;
use crate::constants::known::KnownWords;
use crate::constants::statements::{Pass, statements};
use crate::constants::terms::simple_where_any;
use branch_removal::StraightCode;
use language::Refusal;
use std::alloc::{AllocError, Global};

/// Simpler straight code, in which the loop of each counter may become so many iterations, where it is well typed and
/// within the limits on size.
fn simpler<'f>(
    alloc: Global,
    straight: &StraightCode<'f>,
    unroll_limits: &[u32],
) -> Result<Option<StraightCode<'f>>, AllocError>
    ensures replaced { IfOk result (λ made. IfSome made (IsReplaced straight.now)) }
    ensures exact { IfOk result (λ made. made ≡ checked (simplified_program unroll_limits.now straight.now)) }
{
    let declared = straight.declared();
    let pass = Pass {
        alloc,
        unroll_limits,
        declared,
    };
    let mut known = KnownWords::nothing(alloc, declared.len())?;
    let mut code = Vec::new(alloc);
    statements(&pass, &mut known, &mut code, straight.body())?;
    let value = simple_where_any(alloc, &known, straight.value())?;
    Ok(straight.rewritten(declared, code, value))
}

/// Simpler straight code: a word that is known is a number, a copy is read as its source, an operator between numbers
/// is what it comes to, a branch that a number decides is its one arm, and a loop without iterations is gone. It may
/// stand in the place of the code that it is made of, which alone decides it; there is none where it would not be well
/// typed or not within the limits on size. Running out of memory alone refuses it.
pub fn simplify<'f>(
    alloc: Global,
    straight: &StraightCode<'f>,
) -> Result<Option<StraightCode<'f>>, Refusal>
    ensures replaced { IfOk result (λ made. IfSome made (IsReplaced straight.now)) }
    ensures exact { IfOk result (λ made. made ≡ simplified_of straight.now) }
    ensures memory { IfErr result (λ refusal. IsWantOfMemory refusal.rule refusal.place) }
{
    Ok(simpler(alloc, straight, &[])?)
}

/// Simpler straight code, as `simplify` makes it, in which loops are their iterations, one after the other: those whose
/// bounds are numbers once they are reached, innermost loops first, where what that saves is worth what it adds, an
/// iteration is short, and as far as 32 times as many nodes as the source has go. It may stand in the place of the code
/// that it is made of, which alone decides it; there is none where it would not be well typed or not within the limits
/// on size. Running out of memory alone refuses it.
pub fn unroll<'f>(
    alloc: Global,
    straight: &StraightCode<'f>,
) -> Result<Option<StraightCode<'f>>, Refusal>
    ensures replaced { IfOk result (λ made. IfSome made (IsReplaced straight.now)) }
    ensures exact { IfOk result (λ made. made ≡ unrolled_of straight.now) }
    ensures memory { IfErr result (λ refusal. IsWantOfMemory refusal.rule refusal.place) }
{
    let choice = Choice::of(alloc, straight)?;
    Ok(simpler(alloc, straight, choice.unroll_limits.as_slice())?)
}
