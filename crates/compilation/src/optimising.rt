// Optimised code: rows of passes over straight code, each program of which may stand in the place of the one before.

ghost use Rattle.std.specs.Prelude.{◌≡◌, IfOk, IfErr, IfSome, unwrap_or};
ghost use Rattle.std.specs.Option.{option_map};
ghost use Rattle.compilation.specs.Below.{IsImage, IsWantOfMemory, optimised_fields_of};
ghost use Rattle.compilation.specs.Needs.{needs_as, optimised_needs};
ghost use Rattle.compilation.specs.CodeFor.{IsCodeFor};
ghost use Rattle.compilation.specs.Exact.{after, fast_of, finished_in_groups, finished_of};
ghost use Rattle.compilation.specs.Exact.{fitted_where_shared, fitted_with_words, small_of};
ghost use Rattle.variable_room.specs.needed_variables.Exact.{fitted_of};

use crate::generated::Generated;
use crate::needs::optimised_needs;
use branch_removal::{StraightCode, replaced_is_removed};
use codegen::generate_optimised;
use language::Refusal;
use optimisation::constants::{simplify, unroll};
use optimisation::high_products::high_products;
use optimisation::iteration_groups::IterationGroups;
use std::alloc::Global;
use straight_words::element_words::ElementWords;
use straight_words::live_words::share_words;
use variable_room::needed_variables::{needed_variables, with_needed};
use variable_room::number_words::NumberWords;

/// What a pass made, or else the code that it was given.
fn made_or_given<'a, 'f>(
    made: &'a Option<StraightCode<'f>>,
    given: &'a StraightCode<'f>,
) -> &'a StraightCode<'f>
    ensures { result.now ≡ unwrap_or made.now given.now }
{
    match made {
        Some(code) => code,
        None => given,
    }
}

/// The optimised code of a program as it is, where it is within the limit on words. Only memory refuses it.
fn optimised_code(alloc: Global, straight: &StraightCode<'_>) -> Result<Option<Generated>, Refusal>
    ensures generated { IfOk result (λ made. IfSome made (IsCodeFor straight.now)) }
    ensures exact { IfOk result (λ made. option_map (λ made. made.code) made ≡ optimised_fields_of straight.now) }
    ensures needs { IfOk result (λ made. IfSome made (λ made. needs_as made.needs ≡ optimised_needs straight.now)) }
    ensures allowed { IfOk result (λ made. IfSome made (λ made. IsImage made.code)) }
    ensures memory { IfErr result (λ refusal. IsWantOfMemory refusal.rule refusal.place) }
{
    match generate_optimised(alloc, straight)? {
        Some(code) => {
            let needs = optimised_needs(alloc, straight)?;
            Ok(Some(Generated { code, needs }))
        }
        None => Ok(None),
    }
}

/// The optimised code of a program in which a variable that nothing names has no room, where it is within the limit on
/// words. Only memory refuses it.
fn fitted_code(alloc: Global, straight: StraightCode<'_>) -> Result<Option<Generated>, Refusal>
    ensures generated { IfOk result (λ made. IfSome made (IsCodeFor straight.entry)) }
    ensures exact { IfOk result (λ made.
        option_map (λ made. made.code) made ≡ optimised_fields_of (fitted_of straight.entry)) }
    ensures needs { IfOk result (λ made. IfSome made
        (λ made. needs_as made.needs ≡ optimised_needs (fitted_of straight.entry))) }
    ensures allowed { IfOk result (λ made. IfSome made (λ made. IsImage made.code)) }
    ensures memory { IfErr result (λ refusal. IsWantOfMemory refusal.rule refusal.place) }
{
    let needed = needed_variables(alloc, &straight)?;
    let fitted = with_needed(straight, needed.as_slice());
    replaced_is_removed();
    optimised_code(alloc, &fitted)
}

/// The same, where numbers that are used much are words.
fn fitted_with_words(
    alloc: Global,
    straight: StraightCode<'_>,
) -> Result<Option<Generated>, Refusal>
    ensures generated { IfOk result (λ made. IfSome made (IsCodeFor straight.entry)) }
    ensures exact { IfOk result (λ made.
        option_map (λ made. made.code) made ≡ optimised_fields_of (fitted_with_words straight.entry)) }
    ensures needs { IfOk result (λ made. IfSome made
        (λ made. needs_as made.needs ≡ optimised_needs (fitted_with_words straight.entry))) }
    ensures allowed { IfOk result (λ made. IfSome made (λ made. IsImage made.code)) }
    ensures memory { IfErr result (λ refusal. IsWantOfMemory refusal.rule refusal.place) }
{
    let numbers = NumberWords::of(alloc, &straight)?;
    let with_words = numbers.apply(alloc, &straight)?;
    replaced_is_removed();
    match with_words {
        Some(worded) => fitted_code(alloc, worded),
        None => fitted_code(alloc, straight),
    }
}

/// The optimised code of a program whose loops and arrays are as they stay, where it is within the limit on words:
/// words share variables, numbers that are used much become words, and a variable that nothing names has no room. Only
/// memory refuses it.
fn shared_code(alloc: Global, straight: &StraightCode<'_>) -> Result<Option<Generated>, Refusal>
    ensures generated { IfOk result (λ made. IfSome made (IsCodeFor straight.now)) }
    ensures exact { IfOk result (λ made.
        option_map (λ made. made.code) made ≡ optimised_fields_of (after fitted_where_shared straight.now)) }
    ensures needs { IfOk result (λ made. IfSome made
        (λ made. needs_as made.needs ≡ optimised_needs (after fitted_where_shared straight.now))) }
    ensures allowed { IfOk result (λ made. IfSome made (λ made. IsImage made.code)) }
    ensures memory { IfErr result (λ refusal. IsWantOfMemory refusal.rule refusal.place) }
{
    replaced_is_removed();
    match share_words(alloc, straight)? {
        Some(shared) => fitted_with_words(alloc, shared),
        None => optimised_code(alloc, straight),
    }
}

/// The same of a program whose loops are as they stay: first short arrays become words, and what is known then is a
/// number.
fn finished(alloc: Global, straight: &StraightCode<'_>) -> Result<Option<Generated>, Refusal>
    ensures generated { IfOk result (λ made. IfSome made (IsCodeFor straight.now)) }
    ensures exact { IfOk result (λ made.
        option_map (λ made. made.code) made ≡ optimised_fields_of (finished_of straight.now)) }
    ensures needs { IfOk result (λ made. IfSome made
        (λ made. needs_as made.needs ≡ optimised_needs (finished_of straight.now))) }
    ensures allowed { IfOk result (λ made. IfSome made (λ made. IsImage made.code)) }
    ensures memory { IfErr result (λ refusal. IsWantOfMemory refusal.rule refusal.place) }
{
    let words = ElementWords::of(alloc, straight)?;
    let with_words = words.apply(alloc, straight)?;
    let split = made_or_given(&with_words, straight);
    let with_numbers = simplify(alloc, split)?;
    let simpler = made_or_given(&with_numbers, split);
    replaced_is_removed();
    shared_code(alloc, simpler)
}

/// The same of a program in which loops that stay are over groups of iterations first, where these are short.
fn in_groups(alloc: Global, straight: &StraightCode<'_>) -> Result<Option<Generated>, Refusal>
    ensures generated { IfOk result (λ made. IfSome made (IsCodeFor straight.now)) }
    ensures exact { IfOk result (λ made.
        option_map (λ made. made.code) made ≡ optimised_fields_of (finished_in_groups straight.now)) }
    ensures needs { IfOk result (λ made. IfSome made
        (λ made. needs_as made.needs ≡ optimised_needs (finished_in_groups straight.now))) }
    ensures allowed { IfOk result (λ made. IfSome made (λ made. IsImage made.code)) }
    ensures memory { IfErr result (λ refusal. IsWantOfMemory refusal.rule refusal.place) }
{
    let groups = IterationGroups::of(alloc, straight)?;
    let with_groups = groups.apply(alloc, straight)?;
    let code = made_or_given(&with_groups, straight);
    replaced_is_removed();
    finished(alloc, code)
}

/// The optimised code of a program in which loops become their iterations, or are over groups of them, where it is
/// within the limit on words. What it makes of halves of products is operators first. Only memory refuses it.
pub fn unrolled(alloc: Global, straight: &StraightCode<'_>) -> Result<Option<Generated>, Refusal>
    ensures generated { IfOk result (λ made. IfSome made (IsCodeFor straight.now)) }
    ensures exact { IfOk result (λ made.
        option_map (λ made. made.code) made ≡ optimised_fields_of (fast_of straight.now)) }
    ensures needs { IfOk result (λ made. IfSome made
        (λ made. needs_as made.needs ≡ optimised_needs (fast_of straight.now))) }
    ensures allowed { IfOk result (λ made. IfSome made (λ made. IsImage made.code)) }
    ensures memory { IfErr result (λ refusal. IsWantOfMemory refusal.rule refusal.place) }
{
    let with_operators = high_products(alloc, straight)?;
    let products = made_or_given(&with_operators, straight);
    let without_loops = unroll(alloc, products)?;
    let code = made_or_given(&without_loops, products);
    replaced_is_removed();
    in_groups(alloc, code)
}

/// The optimised code of a program in which all loops that make iterations stay, where it is within the limit on words.
/// What it makes of halves of products is operators first. Only memory refuses it.
pub fn rolled(alloc: Global, straight: &StraightCode<'_>) -> Result<Option<Generated>, Refusal>
    ensures generated { IfOk result (λ made. IfSome made (IsCodeFor straight.now)) }
    ensures exact { IfOk result (λ made.
        option_map (λ made. made.code) made ≡ optimised_fields_of (small_of straight.now)) }
    ensures needs { IfOk result (λ made. IfSome made
        (λ made. needs_as made.needs ≡ optimised_needs (small_of straight.now))) }
    ensures allowed { IfOk result (λ made. IfSome made (λ made. IsImage made.code)) }
    ensures memory { IfErr result (λ refusal. IsWantOfMemory refusal.rule refusal.place) }
{
    let with_operators = high_products(alloc, straight)?;
    let products = made_or_given(&with_operators, straight);
    let with_numbers = simplify(alloc, products)?;
    let code = made_or_given(&with_numbers, products);
    replaced_is_removed();
    finished(alloc, code)
}
