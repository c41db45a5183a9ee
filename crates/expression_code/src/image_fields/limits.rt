// The greatest counts of an image.

ghost use Rattle.std.specs.Prelude.{◌≡◌};
ghost use Rattle.expression_code.specs.image_fields.Limits.{most_parameters, most_frame_bytes, most_steps, most_words};

/// The most parameters that it has.
pub const MOST_PARAMETERS: u16 = 8_192;

/// The most bytes of its frame.
pub const MOST_FRAME_BYTES: u32 = 65_536;

/// The most steps that a run may take.
pub const MOST_STEPS: u64 = 137_438_953_536;

/// The most code words that it has.
pub const MOST_WORDS: u32 = 192_064;

/// The constants are the numbers that the definitions state.
pub fn limits_are_as_stated()
    ensures parameters { MOST_PARAMETERS ≡ most_parameters }
    ensures frame_bytes { MOST_FRAME_BYTES ≡ most_frame_bytes }
    ensures steps { MOST_STEPS ≡ most_steps }
    ensures words { MOST_WORDS ≡ most_words }
{}
