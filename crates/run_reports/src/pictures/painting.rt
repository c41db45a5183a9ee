// What runs show, a step at a time, counted and put into a grid.

ghost use Rattle.std.specs.Prelude.{◌≡◌, ◌^◌, ◌<◌, ◌≤◌, List, [], IsTrue};
ghost use Rattle.run_reports.specs.Below.{code_of, collected, IsShown, Observation, state_of};
ghost use Rattle.run_reports.specs.pictures.Grid.{IsGrid};
ghost use Rattle.run_reports.specs.pictures.Marks.{marks_from};
ghost use Rattle.run_reports.specs.pictures.Parting.{parting_from, run_length};
ghost use Rattle.run_reports.specs.progress.GoingOn.{GoesOn, HasLines, IsTold, OneGoesOn};

use crate::pictures::cells::RunLength;
use crate::pictures::grid::Grid;
use crate::pictures::parting::{entries_in, parting_at};
use crate::progress::{ProgressLines, STEPS_A_LINE};
use rv_machine::{CodeRegion, Memory, Running};
use std::alloc::Global;
use streams::Sink;

/// How long a run is. It makes its steps, and takes no memory. A line goes out behind each `STEPS_A_LINE` steps after
/// which the run goes on.
pub fn length_of<M: Memory, E: Sink>(
    alloc: Global,
    code: &CodeRegion,
    run: &mut Running<M>,
    err: &mut E,
) -> RunLength
    requires few { run.old.steps_left < 2 ^ 63 }
    ensures few { result.steps ≤ run.old.steps_left }
    ensures counted { (seen : List Observation)
        × IsShown (code_of code.now) run.old.steps_left (state_of run.old.hart (M.bytes run.old.memory)) seen
        × (result ≡ run_length seen) }
    ensures told { IsTrue E.TELLS → IsTold HasLines
        (GoesOn (code_of code.now) run.old.steps_left (state_of run.old.hart (M.bytes run.old.memory)))
        (collected (E.taken err.old) (E.failures err.old)) (collected (E.taken err.new) (E.failures err.new)) }
{
    let mut lines = ProgressLines::new();
    let mut steps: u64 = 0;
    let mut entries = 0;
    'steps: loop {
        let Some(seen) = run.step(alloc, code) else {
            return RunLength { steps, entries };
        };
        steps += 1;
        entries += entries_in(seen);
        let is_due = steps >= (lines.count + 1) * STEPS_A_LINE;
        if is_due && run.steps_left > 0 {
            lines.tell(err);
        }
    }
}

/// Makes the steps of two runs of the same code, one of each after the other, and puts what they show into a grid that
/// has no marks. Answers in which step they part. It takes no memory. A line goes out behind each `STEPS_A_LINE` steps
/// after which one of the runs goes on.
pub fn paint<M: Memory, E: Sink>(
    alloc: Global,
    code: &CodeRegion,
    one: &mut Running<M>,
    other: &mut Running<M>,
    grid: &mut Grid,
    err: &mut E,
) -> Option<u64>
    requires few { one.old.steps_left < 2 ^ 63 }
    requires other_few { other.old.steps_left < 2 ^ 63 }
    requires empty { IsGrid grid.old.axes [] grid.old.cells.items }
    ensures painted { (seen seen' : List Observation)
        × IsShown (code_of code.now) one.old.steps_left (state_of one.old.hart (M.bytes one.old.memory)) seen
        × IsShown (code_of code.now) other.old.steps_left (state_of other.old.hart (M.bytes other.old.memory)) seen'
        × IsGrid grid.old.axes (marks_from 0 seen seen') grid.new.cells.items
        × (result ≡ parting_from 0 seen seen') }
    ensures axes { grid.new.axes ≡ grid.old.axes }
    ensures told { IsTrue E.TELLS → IsTold HasLines
        (OneGoesOn (code_of code.now) one.old.steps_left (state_of one.old.hart (M.bytes one.old.memory))
        other.old.steps_left (state_of other.old.hart (M.bytes other.old.memory)))
        (collected (E.taken err.old) (E.failures err.old)) (collected (E.taken err.new) (E.failures err.new)) }
{
    let mut lines = ProgressLines::new();
    let mut step: u64 = 0;
    let mut parting = None;
    'steps: loop {
        let seen = one.step(alloc, code);
        let seen_other = other.step(alloc, code);
        if seen.is_none() && seen_other.is_none() {
            return parting;
        }
        grid.put_step(step, seen, seen_other);
        parting = parting_at(parting, step, seen, seen_other);
        step += 1;
        let is_due = step >= (lines.count + 1) * STEPS_A_LINE;
        let left = one.steps_left.max(other.steps_left);
        if is_due && left > 0 {
            lines.tell(err);
        }
    }
}
