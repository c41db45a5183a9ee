// What is wrong with arguments, found over an image's slots before any memory is asked for.

ghost use Rattle.std.specs.Prelude.{◌≡◌, ◌↔◌, None};
ghost use Rattle.hepurita.specs.Below.{AreWithin, fault_of, IsImage, params_of};

use expression_code::image_fields::Slot;
use image::Image;
use language::arguments::{ArgumentFault, broken_rule, first_fault_by};
use language::{Arg, Args};

/// The first fault of an image's arguments: their count before all else, then the leftmost faulty argument, its shape
/// before its values. It takes no memory.
pub fn first_fault(image: &Image, args: &Args) -> Option<ArgumentFault>
    ensures first { result ≡ fault_of (params_of image.now) args.now }
    ensures within { (result ≡ None) ↔ AreWithin (params_of image.now) args.now }
    ensures allowed { IsImage image.now }
{
    first_fault_by(image.slots(), args.as_slice(), |slot: &Slot, arg: &Arg| {
        broken_rule(&slot.param, arg)
    })
}
