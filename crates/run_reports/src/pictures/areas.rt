// The words of code or frame, or other addresses, drawn over steps.

ghost use Rattle.std.specs.Prelude.{◌≡◌, ◌*◌, ◌≤◌, length, IfOk};
ghost use Rattle.std.specs.String.{string_bytes};
ghost use Rattle.run_reports.specs.pictures.Grid.{most_columns, most_rows};
ghost use Rattle.run_reports.specs.pictures.Page.{rows_of, parting_line, drawing_text, entries_text, axis_text, end_of};
ghost use Rattle.run_reports.specs.pictures.Page.{area_text, elsewhere_text};

use crate::pictures::cells::{Area, Cell, Told};
use crate::pictures::grid::{COLUMNS, ROWS, place_of, places_used};
use crate::pictures::hover::hovers_text;
use crate::pictures::layers::{ALL_LAYERS, layers_text};
use std::alloc::{AllocError, Global};

/// How many rows an area has, or other addresses.
fn rows_of(area: Option<Area>) -> u64
    ensures { result ≡ rows_of area }
{
    match area {
        Some(area) => places_used(u64::from(area.words), ROWS),
        None => 1,
    }
}

/// The line where runs part, over so many rows.
#[tactic(auto, unfolding(crate::specs::pictures::Page::parting_line))]
fn parting_line(
    alloc: Global,
    steps: u64,
    rows: u64,
    parting: Option<u64>,
) -> Result<String, AllocError>
    ensures { IfOk result (λ text. string_bytes text ≡ parting_line steps rows parting) }
{
    match parting {
        Some(step) => {
            let column = place_of(steps, COLUMNS, step);
            format!(in alloc; "<path class=\"parting\" d=\"M{column},-.5v{rows}\"/>\n")
        }
        None => Ok(String::new(alloc)),
    }
}

/// The drawing of an area, or of other addresses.
#[tactic(auto, unfolding(crate::specs::pictures::Page::drawing_text))]
fn drawing_text(
    alloc: Global,
    name: &str,
    area: Option<Area>,
    steps: u64,
    parting: Option<u64>,
    cells: &[Cell],
) -> Result<String, AllocError>
    requires { length cells.now ≤ most_rows * most_columns }
    ensures { IfOk result (λ text. string_bytes text ≡ drawing_text name.now area steps parting cells.now) }
{
    let columns = places_used(steps, COLUMNS);
    let rows = rows_of(area);
    let layers = layers_text(alloc, cells, &ALL_LAYERS)?;
    let line = parting_line(alloc, steps, rows, parting)?;
    let hovers = hovers_text(alloc, steps, area, cells)?;
    format!(in alloc;
        "<svg id=\"{name}\" viewBox=\"0 -.5 {columns} {rows}\" preserveAspectRatio=\"none\">\n\
         {layers}{line}<g>\n{hovers}</g>\n</svg>"
    )
}

/// How many entries the runs show.
#[tactic(auto, unfolding(crate::specs::pictures::Page::entries_text))]
pub fn entries_text(alloc: Global, told: &Told) -> Result<String, AllocError>
    ensures { IfOk result (λ text. string_bytes text ≡ entries_text told.now) }
{
    let one = told.one.entries;
    let other = told.other.entries;
    if told.are_two {
        format!(in alloc; "{one} of the first run, {other} of the second")
    } else {
        format!(in alloc; "{one}")
    }
}

/// The axis of so many steps, and of the entries that they show.
#[tactic(auto, unfolding(crate::specs::pictures::Page::axis_text))]
fn axis_text(alloc: Global, steps: u64, told: &Told) -> Result<String, AllocError>
    ensures { IfOk result (λ text. string_bytes text ≡ axis_text steps told.now) }
{
    let middle = steps / 2;
    let entries = entries_text(alloc, told)?;
    format!(in alloc;
        "<div class=\"steps\"><span>step 0</span><span>{middle}</span><span>{steps}</span></div>\n\
         <div class=\"steps\"><span>entry 0</span><span>{entries}</span></div>\n"
    )
}

impl Area {
    /// The address behind the last word.
    fn end(self) -> u32
        ensures { result ≡ end_of self }
    {
        self.base.wrapping_add(self.words.wrapping_mul(4))
    }
}

/// The words of an area over so many steps, with the addresses at both ends.
#[tactic(auto, unfolding(crate::specs::pictures::Page::area_text))]
pub fn area_text(
    alloc: Global,
    name: &str,
    area: Area,
    steps: u64,
    told: &Told,
    cells: &[Cell],
) -> Result<String, AllocError>
    requires { length cells.now ≤ most_rows * most_columns }
    ensures { IfOk result (λ text. string_bytes text ≡ area_text name.now area steps told.now cells.now) }
{
    let drawing = drawing_text(alloc, name, Some(area), steps, told.parting, cells)?;
    let axis = axis_text(alloc, steps, told)?;
    let high = area.end();
    let low = area.base;
    format!(in alloc;
        "<div class=\"area\"><div class=\"addresses\"><span>{high:08x}</span><span>{low:08x}</span></div>\n\
         {drawing}</div>\n{axis}"
    )
}

/// All other addresses over so many steps.
#[tactic(auto, unfolding(crate::specs::pictures::Page::elsewhere_text))]
pub fn elsewhere_text(
    alloc: Global,
    steps: u64,
    parting: Option<u64>,
    cells: &[Cell],
) -> Result<String, AllocError>
    requires { length cells.now ≤ most_rows * most_columns }
    ensures { IfOk result (λ text. string_bytes text ≡ elsewhere_text steps parting cells.now) }
{
    let drawing = drawing_text(alloc, "elsewhere", None, steps, parting, cells)?;
    format!(in alloc; "<div class=\"area\"><div></div>\n{drawing}</div>\n")
}
