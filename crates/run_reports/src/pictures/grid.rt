// The grid of a picture: where a mark belongs, and how it is put there.

ghost use Rattle.std.specs.Prelude.{◌≡◌, ◌*◌, ◌<◌, ◌≤◌, vec_len, ◌∷◌, []};
ghost use Rattle.run_reports.specs.pictures.Grid.{share, place_of, places_used, word_number, row_of, cell_number};
ghost use Rattle.run_reports.specs.pictures.Grid.{cell_count, most_rows};
ghost use Rattle.run_reports.specs.pictures.Marks.{marks_of, marks_of_both};
ghost use Rattle.run_reports.specs.pictures.private.Added.{Adds};

use crate::pictures::cells::{Area, Axes, Cell, CellMark, Side};
use crate::pictures::marks::{counter_mark, event_mark};
use rv_machine::Observation;
use std::alloc::{AllocError, Global};

/// The most columns.
pub const COLUMNS: u64 = 256;

/// The most rows of code, and of the frame.
pub const ROWS: u64 = 64;

/// How many cells there are: the last row is that of addresses outside of code and frame.
pub const CELLS: u64 = (2 * ROWS + 1) * COLUMNS;

/// How many of so many things each of so many places holds.
pub fn share(count: u64, places: u64) -> u64
    requires { 1 < places }
    ensures exact { result ≡ share count places }
    ensures some { 0 < result }
{
    count.saturating_sub(1) / places + 1
}

/// At which of so many places a thing is.
pub fn place_of(count: u64, places: u64, n: u64) -> u64
    requires { 1 < places }
    ensures exact { result ≡ place_of count places n }
    ensures inside { result < places }
{
    (n / share(count, places)).min(places - 1)
}

/// How many places are in use.
pub fn places_used(count: u64, places: u64) -> u64
    requires { 1 < places }
    ensures { result ≡ places_used count places }
{
    place_of(count, places, count.saturating_sub(1)) + 1
}

impl Area {
    /// The number of the word that an address is in.
    fn word_number(&self, a: u32) -> Option<u32>
        ensures { result ≡ word_number self.now a }
    {
        if a >= self.base && (a - self.base) / 4 < self.words {
            Some((a - self.base) / 4)
        } else {
            None
        }
    }

    /// The row of a word, counted from the area's first.
    fn row_of(&self, word: u32) -> u64
        ensures exact { result ≡ place_of self.now.words most_rows word }
        ensures inside { result < most_rows }
    {
        place_of(u64::from(self.words), ROWS, u64::from(word))
    }
}

impl Axes {
    /// The row of an address.
    fn row_of(&self, a: u32) -> u64
        ensures exact { result ≡ row_of self.now a }
        ensures inside { result ≤ 2 * most_rows }
    {
        if let Some(word) = self.code.word_number(a) {
            return self.code.row_of(word);
        }
        match self.frame.word_number(a) {
            Some(word) => ROWS + self.frame.row_of(word),
            None => 2 * ROWS,
        }
    }

    /// The number of a mark's cell.
    fn cell_number(&self, mark: CellMark) -> u64
        ensures exact { result ≡ cell_number self.now mark }
        ensures inside { result < cell_count }
    {
        self.row_of(mark.address) * COLUMNS + place_of(self.steps, COLUMNS, mark.step)
    }
}

/// Axes, and a cell for each place, row by row.
#[derive(Drop)]
pub struct Grid {
    pub axes: Axes,
    pub cells: Vec<Cell>,
    ghost full: { vec_len cells ≡ cell_count },
}

impl Grid {
    ghost use Rattle.std.specs.Prelude.{IfOk};
    ghost use Rattle.run_reports.specs.pictures.Grid.{IsGrid};

    /// Cells without marks.
    pub fn new(alloc: Global, axes: Axes) -> Result<Grid, AllocError>
        ensures { IfOk result (λ grid. (grid.axes ≡ axes) × IsGrid axes [] grid.cells.items) }
    {
        let cells = vec![in alloc; Cell::BLANK; CELLS as usize]?;
        Ok(Grid { axes, cells })
    }

    /// Puts a mark into its cell.
    fn put(&mut self, mark: CellMark)
        ensures put { Adds self.old.axes (mark ∷ []) self.old.cells.items self.new.cells.items }
        ensures axes { self.new.axes ≡ self.old.axes }
    {
        let number = self.axes.cell_number(mark) as usize;
        self.cells[number] = self.cells[number].joined(mark.cell);
    }

    /// Puts the marks of what a run shows in a step, beside what the other run shows in it.
    fn put_shown(
        &mut self,
        step: u64,
        side: Side,
        seen: Option<Observation>,
        beside: Option<Observation>,
    )
        ensures put { Adds self.old.axes (marks_of step side seen beside) self.old.cells.items self.new.cells.items }
        ensures axes { self.new.axes ≡ self.old.axes }
    {
        let Some(seen) = seen else {
            return;
        };
        self.put(counter_mark(step, side, seen, beside));
        if let Some(event) = seen.event {
            self.put(event_mark(step, side, seen.pc, event, beside));
        }
    }

    /// Puts the marks of what both runs show in a step.
    pub fn put_step(&mut self, step: u64, one: Option<Observation>, other: Option<Observation>)
        ensures put { Adds self.old.axes (marks_of_both step one other) self.old.cells.items self.new.cells.items }
        ensures axes { self.new.axes ≡ self.old.axes }
    {
        self.put_shown(step, Side::One, one, other);
        self.put_shown(step, Side::Other, other, one);
    }
}
