// In which of several files that are read as one source, libraries and then a file, a place of it stands.

ghost use Rattle.std.specs.Prelude.{◌≡◌};
ghost use Rattle.std.specs.Option.{option_map};
ghost use Rattle.image_reports.specs.source_places.Placed.{IsStanding, numbered_of, placed};

use language::Place;
use std::fmt;

/// A library that was read: its path, and how many lines it has.
#[derive(Clone, Copy, Debug)]
pub struct Library<'a> {
    pub path: &'a str,
    pub lines: usize,
}

/// A place in a library, by its path, or in the file where there is none.
#[derive(Clone, Copy, Debug)]
pub struct Standing<'a> {
    pub library: Option<&'a str>,
    pub place: Place,
}

/// In which library a line of the source stands, if it is not in the file, and which line of that it is.
pub fn placed<'a>(libraries: &[Library<'a>], line: u32) -> (Option<&'a str>, u32)
    ensures { (option_map (λ path. path.now) result.0, result.1) ≡ placed (numbered_of libraries.now) line }
{
    let mut left = line;
    for library in libraries {
        if left as usize <= library.lines {
            return (Some(library.path), left);
        }
        left -= library.lines as u32;
    }
    (None, left)
}

/// Where a place of the source stands.
pub fn standing_place<'a>(libraries: &[Library<'a>], place: Place) -> Standing<'a>
    ensures { IsStanding (numbered_of libraries.now) place result }
{
    let (library, line) = placed(libraries, place.line);
    let place = Place {
        offset: place.offset,
        line,
        column: place.column,
    };
    Standing { library, place }
}

/// `LINE:COLUMN` in the file, `PATH:LINE:COLUMN` in a library.
impl fmt::Display for Standing<'_> {
    ghost use Rattle.std.specs.Prelude.{Some};
    ghost use Rattle.image_reports.specs.source_places.Placed.{standing_text};

    ghost output = { λ standing.
        Some (standing_text (option_map (λ path. path.now) standing.library) standing.place) };

    fn fmt<W: fmt::Write>(&self, f: &mut fmt::Formatter<W>) -> fmt::Result {
        let place = self.place;
        match self.library {
            Some(path) => write!(f, "{path}:{place}"),
            None => write!(f, "{place}"),
        }
    }
}
