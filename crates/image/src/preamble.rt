// What each image begins with.

ghost use Rattle.std.specs.Prelude.{◌≡◌};
ghost use Rattle.image.specs.Limits.{magic_number, format_version};

/// The bytes `FACI`, as a number.
pub const MAGIC: u32 = 0x4943_4146;

/// The version of the format.
pub const VERSION: u16 = 1;

/// The constants are the numbers that the definitions state.
pub fn preamble_is_as_stated()
    ensures magic { MAGIC ≡ magic_number }
    ensures version { VERSION ≡ format_version }
{}
