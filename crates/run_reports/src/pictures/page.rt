// The page of a picture.

ghost use Rattle.std.specs.Prelude.{◌≡◌, ◌≤◌, ◌+◌, ◌*◌, length, IfOk};
ghost use Rattle.std.specs.String.{string_bytes};
ghost use Rattle.run_reports.specs.pictures.Page.{steps_text, parted_text, scale_text, legend_text, drawings_text};
ghost use Rattle.run_reports.specs.pictures.Page.{rest_text, page_text};

use crate::pictures::areas::{area_text, elsewhere_text, entries_text};
use crate::pictures::cells::{Axes, Told};
use crate::pictures::constants::{before_asked, before_said, front, legend, legend_of_two};
use crate::pictures::grid::{COLUMNS, Grid, ROWS, share};
use crate::pictures::titles::push_escaped;
use std::alloc::{AllocError, Global};

/// How many steps the runs make.
#[tactic(auto, unfolding(crate::specs::pictures::Page::steps_text))]
fn steps_text(alloc: Global, told: &Told) -> Result<String, AllocError>
    ensures { IfOk result (λ text. string_bytes text ≡ steps_text told.now) }
{
    let one = told.one.steps;
    let other = told.other.steps;
    if told.are_two {
        format!(in alloc;
            "<p>Steps: <b id=\"first\">{one}</b> of the first run, <b id=\"second\">{other}</b> of the second. "
        )
    } else {
        format!(in alloc; "<p>Steps: <b id=\"first\">{one}</b>. ")
    }
}

/// In which step they part.
#[tactic(auto, unfolding(crate::specs::pictures::Page::parted_text))]
fn parted_text(alloc: Global, parting: Option<u64>) -> Result<String, AllocError>
    ensures { IfOk result (λ text. string_bytes text ≡ parted_text parting) }
{
    match parting {
        Some(step) => format!(in alloc; "They part in step <b id=\"parting\">{step}</b>. "),
        None => Ok(String::new(alloc)),
    }
}

/// How much a column and a row stand for.
#[tactic(auto, unfolding(crate::specs::pictures::Page::scale_text))]
fn scale_text(alloc: Global, axes: &Axes) -> Result<String, AllocError>
    ensures { IfOk result (λ text. string_bytes text ≡ scale_text axes.now) }
{
    let column = share(axes.steps, COLUMNS);
    let frame = share(u64::from(axes.frame.words), ROWS);
    let code = share(u64::from(axes.code.words), ROWS);
    format!(in alloc;
        "Steps in a column: {column}. Words of four bytes in a row: {frame} of the frame, {code} of the code.</p>\n"
    )
}

/// The legend of one run, or of two.
#[tactic(auto, unfolding(crate::specs::pictures::Page::legend_text))]
fn legend_text(alloc: Global, are_two: bool) -> Result<String, AllocError>
    ensures { IfOk result (λ text. string_bytes text ≡ legend_text are_two) }
{
    let mut text = String::from_str(alloc, legend())?;
    if are_two {
        text.push_str(legend_of_two())?;
    }
    Ok(text)
}

/// Frame, code and other addresses, each with its title.
#[tactic(auto, unfolding(crate::specs::pictures::Page::drawings_text))]
fn drawings_text(alloc: Global, grid: &Grid, told: &Told) -> Result<String, AllocError>
    ensures { IfOk result (λ text. string_bytes text ≡ drawings_text grid.now.axes grid.now.cells.items told.now) }
{
    let axes = grid.axes;
    let (code, others) = grid.cells.as_slice().split_at((ROWS * COLUMNS) as usize);
    let (frame, elsewhere) = others.split_at((ROWS * COLUMNS) as usize);
    let frame = area_text(alloc, "frame", axes.frame, axes.steps, told, frame)?;
    let code = area_text(alloc, "code", axes.code, axes.steps, told, code)?;
    let elsewhere = elsewhere_text(alloc, axes.steps, told.parting, elsewhere)?;
    format!(in alloc;
        "<h2>Frame</h2>\n{frame}<h2>Code</h2>\n{code}<h2>Other addresses</h2>\n{elsewhere}"
    )
}

/// What stands behind what is said of the runs.
#[tactic(auto, unfolding(crate::specs::pictures::Page::rest_text))]
fn rest_text(alloc: Global, grid: &Grid, told: &Told) -> Result<String, AllocError>
    ensures { IfOk result (λ text.
        string_bytes text ≡ rest_text grid.now.axes grid.now.cells.items told.now) }
{
    let legend = legend_text(alloc, told.are_two)?;
    let steps = steps_text(alloc, told)?;
    let entries = entries_text(alloc, told)?;
    let parted = parted_text(alloc, told.parting)?;
    let scale = scale_text(alloc, &grid.axes)?;
    let drawings = drawings_text(alloc, grid, told)?;
    format!(in alloc;
        "</pre>\n<ul>\n{legend}</ul>\n{steps}Entries: <b id=\"entries\">{entries}</b>. {parted}{scale}{drawings}\
         </body>\n</html>\n"
    )
}

/// The page of a grid, with what was asked for, and with what is said and told of the runs.
pub fn page(
    alloc: Global,
    grid: &Grid,
    asked: &str,
    said: &[u8],
    told: &Told,
) -> Result<Vec<u8>, AllocError>
    ensures exact { IfOk result (λ page.
        page.items ≡ page_text grid.now.axes grid.now.cells.items asked.now said.now told.now) }
    ensures small { IfOk result (λ page.
        length page.items ≤ 20_000_000 + length said.now + 12 * length asked.now) }
{
    let rest = rest_text(alloc, grid, told)?;
    let mut page = Vec::from_slice(alloc, front().as_bytes())?;
    push_escaped(&mut page, asked.as_bytes())?;
    page.extend_from_slice(before_asked().as_bytes())?;
    push_escaped(&mut page, asked.as_bytes())?;
    page.extend_from_slice(before_said().as_bytes())?;
    page.extend_from_slice(said)?;
    page.extend_from_slice(rest.as_bytes())?;
    Ok(page)
}
