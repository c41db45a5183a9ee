// The program in which upper words of products are operators.

ghost use Rattle.std.specs.Prelude.{◌≡◌, IfErr, IfOk, IfSome};
ghost use Rattle.optimisation.specs.Below.{checked, IsReplaced, IsWantOfMemory};
ghost use Rattle.optimisation.specs.high_products.Exact.{with_high_products};
ghost use Rattle.optimisation.specs.high_products.private.Replacing.{replaced_program};

use crate::high_products::finding::program_makes;
use crate::high_products::terms::UpperWords;
use branch_removal::StraightCode;
use language::Refusal;
use std::alloc::{AllocError, Global};
use straight_words::rewriting::statements::block;
use straight_words::rewriting::terms::rewritten_where_any;

/// The program with operators, where it passes the test for straight code.
fn replaced<'f>(
    alloc: Global,
    straight: &StraightCode<'f>,
) -> Result<Option<StraightCode<'f>>, AllocError>
    ensures replaced { IfOk result (λ made. IfSome made (IsReplaced straight.now)) }
    ensures exact { IfOk result (λ made. made ≡ checked (replaced_program straight.now)) }
{
    let code = block(alloc, &UpperWords, straight.body())?;
    let value = rewritten_where_any(alloc, &UpperWords, straight.value())?;
    Ok(straight.rewritten(straight.declared(), code, value))
}

/// The program in which upper words of products are operators. It may stand in the place of the program that it is made
/// of, which alone decides it; there is none where that makes no upper word of halves, and where it would not be well
/// typed or not within the limits on size. Running out of memory alone refuses it.
pub fn high_products<'f>(
    alloc: Global,
    straight: &StraightCode<'f>,
) -> Result<Option<StraightCode<'f>>, Refusal>
    ensures replaced { IfOk result (λ made. IfSome made (IsReplaced straight.now)) }
    ensures exact { IfOk result (λ made. made ≡ with_high_products straight.now) }
    ensures memory { IfErr result (λ refusal. IsWantOfMemory refusal.rule refusal.place) }
{
    if !program_makes(straight) {
        return Ok(None);
    }
    Ok(replaced(alloc, straight)?)
}
