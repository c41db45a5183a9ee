// Runs whose steps are counted, and the line that says how many.

ghost use Rattle.std.specs.Prelude.{◌≡◌, ◌≢◌, ℕ, ◌-◌, ◌^◌, ◌<◌, ◌≤◌, List, IsTrue};
ghost use Rattle.commands.specs.Below.{code_of, collected, GoesOn, HasLines, IsPut, Observation, RunsWithin, state_of};
ghost use Rattle.commands.specs.Progress.{Tells};
ghost use Rattle.commands.specs.StepCounts.{MakesSteps, steps_line};

use arrayvec::ArrayString;
use itoa::Buffer;
use run_reports::progress::{ProgressLines, STEPS_A_LINE};
use rv_machine::{CodeRegion, Memory, Running, Stop, step_unrecorded};
use streams::{Sink, put_all};

/// Makes steps of a run until one stops, at most as many as it may still make, and then it stops by `Budget`; each that
/// is made is one less that is left. Where it is asked for a line of progress goes out behind each `STEPS_A_LINE` steps
/// after which the run goes on.
#[inline(never)]
pub fn run_counting<M: Memory, E: Sink>(
    code: &CodeRegion,
    running: &mut Running<M>,
    progress: bool,
    err: &mut E,
) -> Stop
    requires few { running.old.steps_left < 2 ^ 62 }
    ensures ran { (seen : List Observation)
        × RunsWithin (code_of code.now) running.old.steps_left
        (state_of running.old.hart (M.bytes running.old.memory)) seen result
        (state_of running.new.hart (M.bytes running.new.memory)) }
    ensures calm { result ≢ Stop.RecorderRefused }
    ensures fewer { running.new.steps_left ≤ running.old.steps_left }
    ensures made { MakesSteps (code_of code.now) running.old.steps_left
        (state_of running.old.hart (M.bytes running.old.memory)) (running.old.steps_left - running.new.steps_left) }
    ensures told { IsTrue E.TELLS → Tells HasLines progress
        (GoesOn (code_of code.now) running.old.steps_left (state_of running.old.hart (M.bytes running.old.memory)))
        (collected (E.taken err.old) (E.failures err.old)) (collected (E.taken err.new) (E.failures err.new)) }
{
    let mut lines = ProgressLines::new();
    let mut made: u64 = 0;
    'steps: while running.steps_left > 0 {
        let (_, stop) = step_unrecorded(&mut running.hart, code, &mut running.memory);
        running.steps_left -= 1;
        if let Some(stop) = stop {
            return stop;
        }
        made += 1;
        let is_due = made >= (lines.count + 1) * STEPS_A_LINE;
        if progress && is_due && running.steps_left > 0 {
            lines.tell(err);
        }
    }
    Stop::Budget
}

/// Puts out the line of so many steps. That it could not be put out is nowhere to be said.
pub fn put_steps<E: Sink>(err: &mut E, steps: u64)
    ensures { IsTrue E.TELLS → IsPut (steps_line steps) (collected (E.taken err.old) (E.failures err.old))
        (collected (E.taken err.new) (E.failures err.new)) }
{
    let mut digits = Buffer::new();
    let mut line = ArrayString::<48>::new();
    line.push_str("steps ");
    line.push_str(digits.format(steps));
    line.push_str("\n");
    let _ = put_all(err, line.as_bytes());
}
