// The line of a source that a place is in, with a mark below the place, as text for a terminal.
//
// It promises exactly which bytes the text has (`specs/source_excerpts/Excerpt.antt`), whatever the source holds and
// wherever the place is. It stands on `word` for places.

mod cells;
mod parts;

ghost use Rattle.std.specs.Prelude.{◌≡◌, IfOk};
ghost use Rattle.std.specs.String.{string_bytes};
ghost use Rattle.explanations.specs.source_excerpts.Excerpt.{excerpt_text, marked_text, line_text, below_text};

use crate::source_excerpts::cells::{push_blanks, push_shown};
use crate::source_excerpts::parts::{ExcerptPart, back, front};
use std::alloc::{AllocError, Global};
use word::Place;

/// The source's line at a place behind the line's number, and below it a mark under the place.
///
/// Tabs stand in both lines, so that the mark is under the place however wide they are shown. Each other character that
/// is no printable ASCII is shown as `?`, since it may be invisible, wide, or a command to the terminal. Of a long line
/// the hundred bytes on each side of the place are shown.
pub fn excerpt(alloc: Global, source: &str, place: Place) -> Result<String, AllocError>
    ensures { IfOk result (λ text. string_bytes text ≡ excerpt_text source.now place) }
{
    let bytes = source.as_bytes();
    let front = front(bytes, place.offset);
    let back = back(bytes, place.offset);
    let line_number = place.line;
    let number = format!(in alloc; "{line_number}")?;
    let mut margin = String::new(alloc);
    push_blanks(&mut margin, number.as_bytes())?;
    let line = line_text(alloc, front, back)?;
    let below = below_text(alloc, front)?;
    marked_text(
        alloc,
        number.as_str(),
        line.as_str(),
        margin.as_str(),
        below.as_str(),
    )
}

/// A line behind its number, and below it the mark.
fn marked_text(
    alloc: Global,
    number: &str,
    line: &str,
    margin: &str,
    below: &str,
) -> Result<String, AllocError>
    ensures { IfOk result (λ text. string_bytes text ≡ marked_text number.now line.now margin.now below.now) }
{
    format!(in alloc; "  {number} | {line}\n  {margin} | {below}^\n")
}

/// A line of two parts, as it is shown.
fn line_text(
    alloc: Global,
    front: ExcerptPart<'_>,
    back: ExcerptPart<'_>,
) -> Result<String, AllocError>
    ensures { IfOk result (λ text. string_bytes text
        ≡ line_text front.entry.dots.now front.entry.bytes.now back.entry.bytes.now back.entry.dots.now) }
{
    let mut text = String::new(alloc);
    push_shown(&mut text, front.dots)?;
    push_shown(&mut text, front.bytes)?;
    push_shown(&mut text, back.bytes)?;
    push_shown(&mut text, back.dots)?;
    Ok(text)
}

/// What stands below the part before the place.
fn below_text(alloc: Global, front: ExcerptPart<'_>) -> Result<String, AllocError>
    ensures { IfOk result (λ text. string_bytes text ≡ below_text front.entry.dots.now front.entry.bytes.now) }
{
    let mut text = String::new(alloc);
    push_blanks(&mut text, front.dots)?;
    push_blanks(&mut text, front.bytes)?;
    Ok(text)
}
