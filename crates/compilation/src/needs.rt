// What code needs of its frame where it begins.

ghost use Rattle.std.specs.Prelude.{◌≡◌, ◌≤◌, ◌*◌, IfOk};
ghost use Rattle.std.specs.Option.{option_map};
ghost use Rattle.branch_removal.specs.Kept.{IsStraight};
ghost use Rattle.compilation.specs.Needs.{needs_as, needs_of, optimised_needs, plain_needs};
ghost use Rattle.inline.specs.FlatSize.{declared_words};

use crate::blank::{blank_words, straight_code_is_kept};
use branch_removal::StraightCode;
use codegen::optimised_variables;
use inline::FlatVariable;
use std::alloc::{AllocError, Global};
use variable_room::set_whole::arrays_set_whole;

/// What the frame has to be where code begins: some words are zeros, and the arguments stand in their slots, but for
/// arrays that the code sets whole before it reads them.
#[derive(Drop)]
pub struct FrameNeeds {
    /// The offsets of the words that have to be zeros; none where all have to be.
    pub blank: Option<Vec<u32>>,
    /// Of each parameter, in order, whether its slot may hold any elements.
    pub spared: Vec<bool>,
}

impl FrameNeeds {
    /// The offsets of the words that have to be zeros; none where all have to be.
    pub fn blank_words(&self) -> Option<&[u32]>
        ensures { option_map (λ offsets. offsets.now) result ≡ (needs_as self.now).blank }
    {
        match &self.blank {
            Some(offsets) => Some(offsets.as_slice()),
            None => None,
        }
    }
}

/// What the code of a program needs that lays its variables out so.
fn needs_of(
    alloc: Global,
    straight: &StraightCode<'_>,
    laid: &[FlatVariable],
) -> Result<FrameNeeds, AllocError>
    requires { 4 * declared_words laid.now ≤ 65536 }
    ensures { IfOk result (λ needs. needs_as needs ≡ needs_of laid.now straight.now) }
{
    let blank = blank_words(alloc, straight, laid)?;
    let spared = arrays_set_whole(alloc, straight)?;
    Ok(FrameNeeds { blank, spared })
}

/// What the plain code of a program needs.
pub fn plain_needs(alloc: Global, straight: &StraightCode<'_>) -> Result<FrameNeeds, AllocError>
    ensures needs { IfOk result (λ needs. needs_as needs ≡ plain_needs straight.now) }
    ensures kept { IsStraight straight.now }
{
    straight_code_is_kept(straight);
    needs_of(alloc, straight, straight.declared())
}

/// What its optimised code needs.
pub fn optimised_needs(alloc: Global, straight: &StraightCode<'_>) -> Result<FrameNeeds, AllocError>
    ensures needs { IfOk result (λ needs. needs_as needs ≡ optimised_needs straight.now) }
    ensures kept { IsStraight straight.now }
{
    straight_code_is_kept(straight);
    let laid = optimised_variables(alloc, straight)?;
    needs_of(alloc, straight, laid.as_slice())
}
