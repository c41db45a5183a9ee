// What a cell holds, which is shown where the pointer is over it.

ghost use Rattle.std.specs.Prelude.{◌≡◌, ◌++◌, ◌+◌, ◌*◌, ◌<◌, ◌≤◌, ◌^◌, length, if◌then◌else◌, [], IfOk, OnOk};
ghost use Rattle.std.specs.String.{string_bytes};
ghost use Rattle.run_reports.specs.pictures.Grid.{most_columns, most_rows, share};
ghost use Rattle.run_reports.specs.pictures.Hover.{first_in, last_in, column_text, range_text, row_text};
ghost use Rattle.run_reports.specs.pictures.Hover.{addresses_text, held_text, is_blank, hover_text, hovers_text};

use crate::pictures::cells::{Area, Cell};
use crate::pictures::grid::{COLUMNS, ROWS, share};
use std::alloc::{AllocError, Global};
use std::fmt::Write;

impl Cell {
    /// Whether nothing is done in a cell.
    fn is_blank(self) -> bool
        ensures { result ≡ is_blank self }
    {
        !self.fetched && !self.loaded && !self.stored
    }
}

/// The first of the things that a place holds, where so many places hold so many things.
fn first_in(count: u64, places: u64, place: u64) -> u64
    requires places { 1 < places }
    requires room { place * share count places < 2 ^ 64 }
    ensures { result ≡ first_in count places place }
{
    place * share(count, places)
}

/// The last of them.
fn last_in(count: u64, places: u64, place: u64) -> u64
    requires places { 1 < places }
    requires room { place * share count places + share count places ≤ 2 ^ 64 }
    ensures { result ≡ last_in count places place }
{
    let last = first_in(count, places, place) + (share(count, places) - 1);
    last.min(count.saturating_sub(1))
}

/// Puts which steps a column stands for at the end of a text.
fn push_steps(text: &mut String, steps: u64, column: u64) -> Result<(), AllocError>
    requires { column < most_columns }
    ensures { OnOk result (string_bytes text.new ≡ string_bytes text.old ++ column_text steps column) }
{
    let first = first_in(steps, COLUMNS, column);
    let last = last_in(steps, COLUMNS, column);
    if first == last {
        write!(text, "step {first}")?;
    } else {
        write!(text, "steps {first} to {last}")?;
    }
    Ok(())
}

/// Puts the addresses from one to another at the end of a text.
fn push_range(text: &mut String, low: u64, high: u64) -> Result<(), AllocError>
    ensures { OnOk result (string_bytes text.new ≡ string_bytes text.old ++ range_text low high) }
{
    write!(text, ", {low:08x} to {high:08x}")?;
    Ok(())
}

/// Puts which addresses a row of an area stands for at the end of a text.
fn push_row(text: &mut String, area: Area, row: u64) -> Result<(), AllocError>
    requires { row < most_rows }
    ensures { OnOk result (string_bytes text.new ≡ string_bytes text.old ++ row_text area row) }
{
    let words = u64::from(area.words);
    let base = u64::from(area.base);
    let low = base + 4 * first_in(words, ROWS, row);
    let high = base + 4 * last_in(words, ROWS, row) + 3;
    push_range(text, low, high)
}

/// Puts which addresses a row stands for at the end of a text, where it is a row of an area.
fn push_addresses(text: &mut String, area: Option<Area>, row: u64) -> Result<(), AllocError>
    requires { row < most_rows }
    ensures { OnOk result (string_bytes text.new ≡ string_bytes text.old ++ addresses_text area row) }
{
    match area {
        Some(area) => push_row(text, area, row),
        None => Ok(()),
    }
}

/// Puts words at the end of a text, where something holds.
fn push_if(text: &mut String, holds: bool, words: &str) -> Result<(), AllocError>
    ensures { OnOk result (string_bytes text.new
        ≡ string_bytes text.old ++ (if holds then words.now else [])) }
{
    if holds {
        text.push_str(words)?;
    }
    Ok(())
}

/// Puts what a cell holds at the end of a text.
fn push_held(text: &mut String, cell: Cell) -> Result<(), AllocError>
    ensures { OnOk result (string_bytes text.new ≡ string_bytes text.old ++ held_text cell) }
{
    push_if(text, cell.fetched, ", executed")?;
    push_if(text, cell.loaded, ", load")?;
    push_if(text, cell.stored, ", store")?;
    push_if(text, cell.one_differs, ", in the first run alone")?;
    push_if(text, cell.other_differs, ", in the second run alone")
}

/// Puts what is shown over the cell with a number at the end of a text.
fn push_hover(
    text: &mut String,
    steps: u64,
    area: Option<Area>,
    number: u64,
    cell: Cell,
) -> Result<(), AllocError>
    requires { number < most_rows * most_columns }
    ensures { OnOk result (string_bytes text.new ≡ string_bytes text.old ++ hover_text steps area number cell) }
{
    let column = number % COLUMNS;
    let row = number / COLUMNS;
    write!(text, "<path d=\"M{column},{row}h1\"><title>")?;
    push_steps(text, steps, column)?;
    push_addresses(text, area, row)?;
    push_held(text, cell)?;
    text.push_str("</title></path>\n")
}

/// What is shown over each cell of an area in which something is done, or over those of other addresses.
pub fn hovers_text(
    alloc: Global,
    steps: u64,
    area: Option<Area>,
    cells: &[Cell],
) -> Result<String, AllocError>
    requires { length cells.now ≤ most_rows * most_columns }
    ensures { IfOk result (λ text. string_bytes text ≡ hovers_text steps area 0 cells.now) }
{
    let mut text = String::new(alloc);
    for (number, &cell) in cells.iter().enumerate() {
        if !cell.is_blank() {
            push_hover(&mut text, steps, area, number as u64, cell)?;
        }
    }
    Ok(text)
}
