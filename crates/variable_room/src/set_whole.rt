// Which `mut` arrays straight code sets whole before it reads them. Then what such an array holds where the code begins
// makes no difference. Stands on `inline` and `branch_removal`.

ghost use Rattle.std.specs.Prelude.{◌≡◌, ◌&&◌, IfOk};
ghost use Rattle.variable_room.specs.set_whole.Whole.{ArraysSetWholeDoNotMatter, is_candidate, set_whole_of};
ghost use Rattle.variable_room.specs.set_whole.Whole.{sets_whole};

mod statements;
mod watch;

use crate::set_whole::watch::{ArrayWatch, all_set};
use branch_removal::StraightCode;
use language::Param;
use std::alloc::{AllocError, Global};

/// A program of one node has so many iterations followed one after the other, and a larger one fewer.
const MOST_ITERATIONS: u32 = 262_144;

/// So many parameters may be such arrays.
const MOST_PARAMETERS: usize = 8;

/// Whether straight code sets all elements of an array of so many, and reads each only once it was set.
fn sets_whole(
    alloc: Global,
    straight: &StraightCode<'_>,
    array: u32,
    count: usize,
) -> Result<bool, AllocError>
    ensures { IfOk result (λ whole. whole ≡ sets_whole straight.now array count) }
{
    let watch = ArrayWatch {
        array,
        room: MOST_ITERATIONS / straight.nodes().max(1),
        counters: Vec::new(alloc),
    };
    let mut flags = vec![in alloc; false; count]?;
    if !watch.watch_all(alloc, &mut flags, straight.body())? {
        return Ok(false);
    }
    Ok(all_set(flags.as_slice()))
}

/// Whether a parameter, which has this number, is an array of numbers that straight code sets whole.
fn is_set_whole(
    alloc: Global,
    straight: &StraightCode<'_>,
    number: usize,
    parameter: Param,
) -> Result<bool, AllocError>
    ensures { IfOk result (λ whole.
        whole ≡ (is_candidate number parameter && sets_whole straight.now number parameter.length)) }
{
    if number >= MOST_PARAMETERS {
        return Ok(false);
    }
    if !parameter.form.is_mutable() || !parameter.kind.is_number() {
        return Ok(false);
    }
    sets_whole(
        alloc,
        straight,
        number as u32,
        usize::from(parameter.length),
    )
}

/// For each parameter, whether straight code sets it whole before it reads it: a `mut` array of numbers, of which what
/// it holds where the code begins makes no difference.
pub fn arrays_set_whole(alloc: Global, straight: &StraightCode<'_>) -> Result<Vec<bool>, AllocError>
    ensures { IfOk result (λ whole. whole.items ≡ set_whole_of straight.now) }
{
    let parameters = straight.parameters();
    let mut whole = Vec::new(alloc);
    for (number, parameter) in parameters.iter().enumerate() {
        whole.push(is_set_whole(alloc, straight, number, *parameter)?)?;
    }
    Ok(whole)
}

/// What straight code computes, and the path that it takes, do not depend on what the arrays hold that it sets whole.
pub fn arrays_set_whole_do_not_matter()
    ensures { ArraysSetWholeDoNotMatter }
{}
