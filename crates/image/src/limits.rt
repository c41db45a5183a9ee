// How many bytes an image takes.

ghost use Rattle.std.specs.Prelude.{◌≡◌};
ghost use Rattle.image.specs.Limits.{longest_image};

use expression_code::image_fields::{MOST_PARAMETERS, MOST_WORDS};

/// How many bytes an image takes at most beside its parameters and its code words.
pub(crate) const FIXED_BYTES: usize = 33;

/// How many bytes a parameter's fields take.
pub(crate) const PARAMETER_BYTES: usize = 9;

/// How many bytes a code word takes.
pub(crate) const WORD_BYTES: usize = 4;

/// The most bytes that spell an image.
pub const LONGEST_IMAGE: usize = FIXED_BYTES
    + PARAMETER_BYTES * (MOST_PARAMETERS as usize)
    + WORD_BYTES * (MOST_WORDS as usize);

/// The constant is the number that the definitions state.
pub fn limits_are_as_stated()
    ensures bytes { LONGEST_IMAGE ≡ longest_image }
{}
