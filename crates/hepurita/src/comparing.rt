// Two runs of an image, compared by what an observer sees.

ghost use Rattle.std.specs.Prelude.{◌≡◌, None};
ghost use Rattle.hepurita.specs.Below.{AreWithin, IsImage, params_of};
ghost use Rattle.hepurita.specs.Paired.{pair_fault, Paired};

use crate::checking::first_fault;
use crate::fault::RunFault;
use crate::loading::{code, load};
use image::Image;
use language::Args;
use language::arguments::ArgumentFault;
use rv_machine::{Pairing, compare};
use std::alloc::Global;

/// The first fault of two lists of arguments; those of the second are numbered after the first's.
pub fn fault_of_both(image: &Image, one: &Args, other: &Args) -> Option<ArgumentFault>
    ensures first { result ≡ pair_fault (params_of image.now) one.now other.now }
    ensures within { result ≡ None
        → AreWithin (params_of image.now) one.now × AreWithin (params_of image.now) other.now }
    ensures allowed { IsImage image.now }
{
    let count = image.slots().len();
    if one.as_slice().len() != count || other.as_slice().len() != count {
        return Some(ArgumentFault::count());
    }
    if let Some(fault) = first_fault(image, one) {
        return Some(fault);
    }
    let fault = first_fault(image, other)?;
    Some(fault.behind(count))
}

/// Runs an image on two lists of arguments, and compares what an observer sees of the two runs.
/// Stops are not compared. Arguments are refused by their first fault, before memory is asked for. Both runs
/// are made in step, and once they are loaded they take no memory.
pub fn pair(alloc: Global, image: &Image, one: &Args, other: &Args) -> Result<Pairing, RunFault>
    ensures { Paired image.now one.now other.now result }
{
    if let Some(fault) = fault_of_both(image, one, other) {
        return Err(RunFault::from(fault));
    }
    let code = code(alloc, image)?;
    let mut one = load(alloc, image, one)?;
    let mut other = load(alloc, image, other)?;
    Ok(compare(alloc, &code, &mut one, &mut other))
}
