// What a line says.

ghost use Rattle.std.specs.Prelude.{◌≡◌, IfOk, map};
ghost use Rattle.std.specs.Option.{option_map};
ghost use Rattle.input_files.specs.harts_file.Lines.{is_joined, hart_by, turns_by, rounds_by, said_with};
ghost use Rattle.input_files.specs.harts_file.Lines.{said_by_fields, said_of};
ghost use Rattle.input_files.specs.harts_file.private.Reading.{said_by_line, held};

use crate::harts_file::numerals::decimal;
use std::alloc::{AllocError, Global};

/// What a line of a good form says.
#[derive(Debug, Drop)]
pub enum Line<'a> {
    /// One hart more: the path of its image, and its arguments.
    Hart {
        path: &'a str,
        arguments: Vec<&'a str>,
    },
    /// So many turns of this hart.
    Turns {
        hart: u64,
        count: u64,
    },
    /// So many times one turn of each hart, in their order.
    Round {
        count: u64,
    },
}

/// A blank.
const BLANK: char = ' ';

/// Whether a line is fields joined by one blank each. A carriage return is no field's.
fn is_joined(line: &str) -> bool
    ensures { result ≡ is_joined line.now }
{
    !line.as_bytes().contains(&b'\r') && line.split(BLANK).all(|field| !field.is_empty())
}

/// What the fields behind `hart` say: the path of an image, and arguments.
fn hart_by<'a>(alloc: Global, fields: &[&'a str]) -> Result<Option<Line<'a>>, AllocError>
    ensures { IfOk result (λ line.
        option_map said_by_line line ≡ option_map held (hart_by (map (λ field. field.now) fields.now))) }
{
    match fields {
        [path, arguments @ ..] => {
            let arguments = Vec::from_slice(alloc, arguments)?;
            Ok(Some(Line::Hart { path, arguments }))
        }
        [] => Ok(None),
    }
}

/// What the fields behind `turns` say: the number of a hart, and how many turns.
fn turns_by<'a>(fields: &[&'a str]) -> Option<Line<'a>>
    ensures { option_map said_by_line result ≡ option_map held (turns_by (map (λ field. field.now) fields.now)) }
{
    match fields {
        [hart, count] => {
            let hart = decimal(hart)?;
            let count = decimal(count)?;
            Some(Line::Turns { hart, count })
        }
        _ => None,
    }
}

/// What the fields behind `round` say: how many rounds.
fn rounds_by<'a>(fields: &[&'a str]) -> Option<Line<'a>>
    ensures { option_map said_by_line result ≡ option_map held (rounds_by (map (λ field. field.now) fields.now)) }
{
    match fields {
        [count] => {
            let count = decimal(count)?;
            Some(Line::Round { count })
        }
        _ => None,
    }
}

/// What a word and the fields behind it say.
fn said_with<'a>(
    alloc: Global,
    word: &str,
    fields: &[&'a str],
) -> Result<Option<Line<'a>>, AllocError>
    ensures { IfOk result (λ line.
        option_map said_by_line line ≡ option_map held (said_with word.now (map (λ field. field.now) fields.now))) }
{
    match word {
        "hart" => hart_by(alloc, fields),
        "turns" => Ok(turns_by(fields)),
        "round" => Ok(rounds_by(fields)),
        _ => Ok(None),
    }
}

/// What fields say, of which the first is a word.
fn said_by_fields<'a>(alloc: Global, fields: &[&'a str]) -> Result<Option<Line<'a>>, AllocError>
    ensures { IfOk result (λ line.
        option_map said_by_line line ≡ option_map held (said_by_fields (map (λ field. field.now) fields.now))) }
{
    match fields {
        [word, fields @ ..] => said_with(alloc, word, fields),
        [] => Ok(None),
    }
}

/// What a line says, which stands without its end. `None` where it has no form.
pub fn line_of<'a>(alloc: Global, line: &'a str) -> Result<Option<Line<'a>>, AllocError>
    ensures { IfOk result (λ said. option_map said_by_line said ≡ option_map held (said_of line.now)) }
{
    if !is_joined(line) {
        return Ok(None);
    }
    let fields: Vec<&'a str> = line.split(BLANK).collect(alloc)?;
    said_by_fields(alloc, fields.as_slice())
}
