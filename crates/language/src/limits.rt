// The greatest counts of the language. The limits of a text are those of its reader.

ghost use Rattle.std.specs.Prelude.{◌≡◌};
ghost use Rattle.language.specs.Limits.{most_nodes, most_bodies, most_declared_bytes, most_elements};

/// The most nodes that a procedure may have, those of the bodies that it calls among them.
pub const MOST_NODES: u32 = 6_000;

/// The most bodies that may be open at once, each in the one that calls it, the export's among them.
pub const MOST_BODIES: u32 = 64;

/// The most bytes that a procedure may declare.
pub const MOST_DECLARED_BYTES: u32 = 32_768;

/// The most elements of an array.
pub const MOST_ELEMENTS: u16 = 4_096;

/// The constants are the numbers that the definitions state.
pub fn limits_are_as_stated()
    ensures nodes { MOST_NODES ≡ most_nodes }
    ensures bodies { MOST_BODIES ≡ most_bodies }
    ensures declared_bytes { MOST_DECLARED_BYTES ≡ most_declared_bytes }
    ensures elements { MOST_ELEMENTS ≡ most_elements }
{}
