// Layers of a picture: which cells are drawn in which colour.

ghost use Rattle.std.specs.Prelude.{◌≡◌, ◌++◌, IfOk, OnOk};
ghost use Rattle.std.specs.String.{string_bytes};
ghost use Rattle.run_reports.specs.pictures.Page.{holds, class_of, cell_text, cells_text, layer_text, layers_text};

use crate::pictures::cells::Cell;
use crate::pictures::grid::COLUMNS;
use std::alloc::{AllocError, Global};
use std::fmt::Write;

/// Which cells are drawn alike.
#[derive(Clone, Copy)]
pub enum Layer {
    Fetched,
    Loaded,
    Stored,
    LoadedAndStored,
    OneDiffers,
    OtherDiffers,
}

/// All layers, in the order in which they are drawn.
pub const ALL_LAYERS: [Layer; 6] = [
    Layer::Fetched,
    Layer::Loaded,
    Layer::Stored,
    Layer::LoadedAndStored,
    Layer::OneDiffers,
    Layer::OtherDiffers,
];

impl Layer {
    /// Whether a cell is drawn in this layer.
    fn holds(self, cell: Cell) -> bool
        ensures { result ≡ holds self cell }
    {
        match self {
            Layer::Fetched => cell.fetched && !cell.loaded && !cell.stored,
            Layer::Loaded => cell.loaded && !cell.stored,
            Layer::Stored => cell.stored && !cell.loaded,
            Layer::LoadedAndStored => cell.loaded && cell.stored,
            Layer::OneDiffers => cell.one_differs,
            Layer::OtherDiffers => cell.other_differs,
        }
    }

    /// What the page calls this layer.
    fn class_of(self) -> &'static str
        ensures { result.now ≡ class_of self }
    {
        match self {
            Layer::Fetched => "fetch",
            Layer::Loaded => "load",
            Layer::Stored => "store",
            Layer::LoadedAndStored => "both",
            Layer::OneDiffers => "one",
            Layer::OtherDiffers => "other",
        }
    }
}

/// Puts the piece of a line that draws the cell with a number at the end of a text.
fn push_cell(text: &mut String, number: u64) -> Result<(), AllocError>
    ensures { OnOk result (string_bytes text.new ≡ string_bytes text.old ++ cell_text number) }
{
    let column = number % COLUMNS;
    let row = number / COLUMNS;
    write!(text, "M{column},{row}h1")?;
    Ok(())
}

/// The cells of a layer.
fn cells_text(alloc: Global, layer: Layer, cells: &[Cell]) -> Result<String, AllocError>
    ensures { IfOk result (λ text. string_bytes text ≡ cells_text layer 0 cells.now) }
{
    let mut text = String::new(alloc);
    for (number, &cell) in cells.iter().enumerate() {
        if layer.holds(cell) {
            push_cell(&mut text, number as u64)?;
        }
    }
    Ok(text)
}

/// Puts the line that draws a layer at the end of a text.
fn push_layer(
    alloc: Global,
    text: &mut String,
    cells: &[Cell],
    layer: Layer,
) -> Result<(), AllocError>
    ensures { OnOk result (string_bytes text.new ≡ string_bytes text.old ++ layer_text cells.now layer) }
{
    let class = layer.class_of();
    let drawn = cells_text(alloc, layer, cells)?;
    writeln!(text, "<path class=\"{class}\" d=\"{drawn}\"/>")?;
    Ok(())
}

/// The lines that draw layers, later ones over earlier ones.
#[tactic(auto, unfolding(crate::specs::pictures::Page::layers_text))]
pub fn layers_text(alloc: Global, cells: &[Cell], layers: &[Layer]) -> Result<String, AllocError>
    ensures { IfOk result (λ text. string_bytes text ≡ layers_text cells.now layers.now) }
{
    let mut text = String::new(alloc);
    for &layer in layers {
        push_layer(alloc, &mut text, cells, layer)?;
    }
    Ok(text)
}
