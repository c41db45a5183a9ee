// The vector that a line says.

ghost use Rattle.std.specs.Prelude.{◌≡◌, map, IfOk};
ghost use Rattle.std.specs.Option.{option_map};
ghost use Rattle.image_reports.specs.vectors.Lines.{says_nothing, cut_at, fields_of, vector_of};
ghost use Rattle.image_reports.specs.vectors.Views.{named};

use std::alloc::{AllocError, Global};

/// A vector: its name, the texts of arguments, and those of the outcome that they have to give.
#[derive(Debug, Drop)]
pub struct Vector<'a> {
    pub name: &'a str,
    pub given: Vec<&'a str>,
    pub wanted: Vec<&'a str>,
}

/// Whether a line begins with `#`, or has nothing but blanks.
pub fn says_nothing(line: &str) -> bool
    ensures { result ≡ says_nothing line.now }
{
    line.starts_with("#") || line.as_bytes().iter().all(|byte| *byte == b' ')
}

/// What stands between the blanks of a text.
fn fields_of<'a>(alloc: Global, text: &'a str) -> Result<Vec<&'a str>, AllocError>
    ensures { IfOk result (λ fields. map (λ field. field.now) fields.items ≡ fields_of text.now) }
{
    text.split(' ')
        .filter(|field| !field.is_empty())
        .collect(alloc)
}

/// The vector that a line says, `NAME: ARG .. = OUTCOME ..`. `None` where it has not that form.
pub fn vector_of<'a>(alloc: Global, line: &'a str) -> Result<Option<Vector<'a>>, AllocError>
    ensures { IfOk result (λ vector. option_map named vector ≡ vector_of line.now) }
{
    let Some((name, sides)) = line.split_once(':') else {
        return Ok(None);
    };
    let Some((given, wanted)) = sides.split_once('=') else {
        return Ok(None);
    };
    Ok(Some(Vector {
        name,
        given: fields_of(alloc, given)?,
        wanted: fields_of(alloc, wanted)?,
    }))
}
