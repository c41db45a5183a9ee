// The greatest counts of a body with numbered variables.

ghost use Rattle.std.specs.Prelude.{◌≡◌, ◌+◌, ◌*◌, ◌/◌};
ghost use Rattle.inline.specs.Limits.{most_variable_bytes};
ghost use Rattle.inline.specs.Below.{most_declared_bytes, most_nodes};

/// The most bytes that its variables take: what the source may declare, and a word of 4 bytes for every three of
/// the most nodes, since each value that is held besides stands for three nodes or more.
pub const MOST_VARIABLE_BYTES: u32 = 40_768;

/// The constant is the number that the definitions state, which comes from those of the language.
pub fn limits_are_as_stated()
    ensures variable_bytes { MOST_VARIABLE_BYTES ≡ most_variable_bytes }
    ensures derived { most_variable_bytes ≡ most_declared_bytes + 4 * (most_nodes / 3) }
{}
