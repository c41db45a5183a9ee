// The picture of two runs.

ghost use Rattle.std.specs.Prelude.{◌≡◌, ◌^◌, ◌<◌, ◌≤◌, ◌+◌, ◌*◌, length, IfOk, IsTrue, OnErr, OnOk};
ghost use Rattle.run_reports.specs.Below.{code_of, collected, state_of};
ghost use Rattle.run_reports.specs.pictures.Pictured.{IsPicture};
ghost use Rattle.run_reports.specs.pictures.Telling.{PictureTells};
ghost use Rattle.run_reports.specs.progress.GoingOn.{HasLines, Reaches};

use crate::pictures::cells::{Area, Axes, Told};
use crate::pictures::grid::Grid;
use crate::pictures::page::page;
use crate::pictures::painting::{length_of, paint};
use rv_machine::{CodeRegion, Memory, Running};
use std::alloc::{AllocError, Global};
use streams::Sink;

/// Two runs that have not begun yet.
#[derive(Drop)]
pub struct PairOfRuns<M> {
    pub one: Running<M>,
    pub other: Running<M>,
}

/// What is drawn of two runs: which addresses code and frame have, what was asked for, what is said of the runs, which
/// stands on the page as it is, and whether they are two, or one in both places.
#[derive(Clone, Copy)]
pub struct Drawing<'a> {
    pub code: Area,
    pub frame: Area,
    pub asked: &'a str,
    pub said: &'a [u8],
    pub are_two: bool,
}

/// The page of two runs of the same code. Each run is made twice, from one state: once to count its steps, and once to
/// draw them, and each time lines of progress go out. Memory is taken for cells and page alone, however many steps the
/// runs make.
pub fn picture<M: Memory, E: Sink>(
    alloc: Global,
    code: &CodeRegion,
    counted: &mut PairOfRuns<M>,
    drawn: &mut PairOfRuns<M>,
    drawing: &Drawing<'_>,
    err: &mut E,
) -> Result<Vec<u8>, AllocError>
    requires few { (drawn.old.one.steps_left < 2 ^ 63) × (drawn.old.other.steps_left < 2 ^ 63) }
    requires steps { (counted.old.one.steps_left ≡ drawn.old.one.steps_left)
        × (counted.old.other.steps_left ≡ drawn.old.other.steps_left) }
    requires one { state_of counted.old.one.hart (M.bytes counted.old.one.memory)
        ≡ state_of drawn.old.one.hart (M.bytes drawn.old.one.memory) }
    requires other { state_of counted.old.other.hart (M.bytes counted.old.other.memory)
        ≡ state_of drawn.old.other.hart (M.bytes drawn.old.other.memory) }
    ensures exact { IfOk result (λ page. IsPicture (code_of code.now)
        drawn.old.one.steps_left (state_of drawn.old.one.hart (M.bytes drawn.old.one.memory))
        drawn.old.other.steps_left (state_of drawn.old.other.hart (M.bytes drawn.old.other.memory))
        drawing.now.code drawing.now.frame drawing.now.asked.now drawing.now.said.now drawing.now.are_two
        page.items) }
    ensures small { IfOk result (λ page.
        length page.items ≤ 20_000_000 + length drawing.now.said.now + 12 * length drawing.now.asked.now) }
    ensures told { IsTrue E.TELLS → OnOk result (PictureTells HasLines (code_of code.now)
        drawn.old.one.steps_left (state_of drawn.old.one.hart (M.bytes drawn.old.one.memory))
        drawn.old.other.steps_left (state_of drawn.old.other.hart (M.bytes drawn.old.other.memory))
        (collected (E.taken err.old) (E.failures err.old)) (collected (E.taken err.new) (E.failures err.new))) }
    ensures part { IsTrue E.TELLS → OnErr result (PictureTells Reaches (code_of code.now)
        drawn.old.one.steps_left (state_of drawn.old.one.hart (M.bytes drawn.old.one.memory))
        drawn.old.other.steps_left (state_of drawn.old.other.hart (M.bytes drawn.old.other.memory))
        (collected (E.taken err.old) (E.failures err.old)) (collected (E.taken err.new) (E.failures err.new))) }
{
    let one = length_of(alloc, code, &mut counted.one, err);
    let other = length_of(alloc, code, &mut counted.other, err);
    let axes = Axes {
        steps: one.steps.max(other.steps),
        code: drawing.code,
        frame: drawing.frame,
    };
    let mut grid = Grid::new(alloc, axes)?;
    let parting = paint(
        alloc,
        code,
        &mut drawn.one,
        &mut drawn.other,
        &mut grid,
        err,
    );
    let told = Told {
        are_two: drawing.are_two,
        one,
        other,
        parting,
    };
    page(alloc, &grid, drawing.asked, drawing.said, &told)
}
