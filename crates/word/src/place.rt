// Places in texts, which source and refusals name.

ghost use Rattle.std.specs.Prelude.{Some};
ghost use Rattle.word.specs.Places.{place_text};

use std::fmt;

/// Where something stands in a text.
#[derive(Clone, Copy, Debug, PartialEq, Eq)]
pub struct Place {
    /// How many bytes stand before it.
    pub offset: u32,
    /// Its line, from 1. A line feed ends a line.
    pub line: u32,
    /// Its column in bytes, from 1.
    pub column: u32,
}

impl Place {
    /// The beginning of a text.
    pub const ORIGIN: Place = Place {
        offset: 0,
        line: 1,
        column: 1,
    };
}

/// `LINE:COLUMN`.
impl fmt::Display for Place {
    ghost output = { λ place. Some (place_text place) };

    fn fmt<W: fmt::Write>(&self, f: &mut fmt::Formatter<W>) -> fmt::Result {
        let line = self.line;
        let column = self.column;
        write!(f, "{line}:{column}")
    }
}
