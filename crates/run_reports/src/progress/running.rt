// A run in pieces.

ghost use Rattle.std.specs.Prelude.{◌≡◌, ◌≢◌, ℕ, ◌^◌, ◌<◌, ◌≤◌, true, false, List, [], IsTrue};
ghost use Rattle.run_reports.specs.progress.Lines.{steps_a_line};
ghost use Rattle.run_reports.specs.Below.{code_of, collected, Observation, RunsWithin, state_of};
ghost use Rattle.run_reports.specs.progress.GoingOn.{GoesOn, HasLines, IsTold};

use crate::progress::lines::{ProgressLines, STEPS_A_LINE};
use rv_machine::{CodeRegion, Memory, Observation, Recorder, Running, Stop, run};
use std::alloc::AllocError;
use streams::Sink;

/// Keeps nothing, and never refuses. It is a type of its own, so that the loop over a run in one piece, which has
/// another recorder, stays compiled in line where that is called.
#[derive(Drop)]
struct Unrecorded;

impl Recorder for Unrecorded {
    ghost KEEPS = { false };

    ghost list = { λ _. [] };

    ghost refusals = { λ _. 0 };

    ghost is_ready = { λ _ _. Unit {0} };

    const KEEPS: bool = false;

    fn note(&mut self, _o: Observation) -> Result<(), AllocError> {
        Ok(())
    }
}

/// How many steps the next piece has, where so many are left.
fn piece_of(left: u64) -> u64
    ensures last { left ≤ steps_a_line → result ≡ left }
    ensures whole { steps_a_line < left → result ≡ steps_a_line }
{
    left.min(STEPS_A_LINE)
}

/// Whether a run has used up its steps.
fn is_spent(stop: Stop) -> bool
    ensures spent { result ≡ true → stop ≡ Stop.Budget }
    ensures stopped { result ≡ false → stop ≢ Stop.Budget }
{
    stop == Stop::Budget
}

/// Makes steps of a run until one stops, at most as many as it may still make, and then it stops by `Budget`. A line
/// goes out behind each `STEPS_A_LINE` steps after which the run goes on.
// It is never compiled in line: beside a caller's own values, those of the steps do not fit the registers.
#[inline(never)]
pub fn run_in_pieces<M: Memory, E: Sink>(
    code: &CodeRegion,
    running: &mut Running<M>,
    err: &mut E,
) -> Stop
    requires few { running.old.steps_left < 2 ^ 63 }
    ensures ran { (seen : List Observation)
        × RunsWithin (code_of code.now) running.old.steps_left
        (state_of running.old.hart (M.bytes running.old.memory)) seen result
        (state_of running.new.hart (M.bytes running.new.memory)) }
    ensures calm { result ≢ Stop.RecorderRefused }
    ensures told { IsTrue E.TELLS → IsTold HasLines
        (GoesOn (code_of code.now) running.old.steps_left (state_of running.old.hart (M.bytes running.old.memory)))
        (collected (E.taken err.old) (E.failures err.old)) (collected (E.taken err.new) (E.failures err.new)) }
{
    let mut lines = ProgressLines::new();
    'pieces: loop {
        let stop = run(
            &mut running.hart,
            code,
            &mut running.memory,
            &mut Unrecorded,
            piece_of(running.steps_left),
        );
        if running.steps_left <= STEPS_A_LINE {
            return stop;
        }
        if !is_spent(stop) {
            return stop;
        }
        running.steps_left -= STEPS_A_LINE;
        lines.tell(err);
    }
}
