// Runs, a step at a time, up to an entry of what they show.

ghost use Rattle.std.specs.Prelude.{◌≡◌, ◌-◌, ◌<◌, ◌≤◌, List, [], length, None, IfSome, false};
ghost use Rattle.run_reports.specs.Below.{code_of, entries_of, Leads, Observation, State, state_of, OneStep};
ghost use Rattle.run_reports.specs.run_places.Places.{IsLastBefore, ShowsFewer};

use rv_machine::{
    CodeRegion, Memory, Observation, Recorder, Running, Stop, TurnRecorder, entry_count, run, step,
};
use std::alloc::{AllocError, Global};

/// Keeps nothing, and never refuses. It is a recorder of its own, so that the machine's loop with `NullRecorder` has
/// one caller in a program, where the compiler puts it in line: with two of them each step takes a tenth more.
#[derive(Drop)]
struct Unheard;

impl Recorder for Unheard {
    ghost KEEPS = { false };

    ghost list = { λ _. [] };

    ghost refusals = { λ _. 0 };

    ghost is_ready = { λ _ _. Unit {0} };

    const KEEPS: bool = false;

    fn note(&mut self, _o: Observation) -> Result<(), AllocError> {
        Ok(())
    }
}

/// One step: what it shows, and why the run ends by it, where it does. It takes no memory. How many steps may still be
/// made is not changed.
pub(crate) fn one_step<M: Memory>(
    alloc: Global,
    code: &CodeRegion,
    run: &mut Running<M>,
) -> (Option<Observation>, Option<Stop>)
    ensures { OneStep (code_of code.now) (state_of run.old.hart (M.bytes run.old.memory)) result.0 result.1
        (state_of run.new.hart (M.bytes run.new.memory)) }
{
    let mut recorder = TurnRecorder::new(alloc);
    let stop = step(&mut run.hart, code, &mut run.memory, &mut recorder);
    (recorder.first(), stop)
}

/// How many steps a run has made, and how many entries these have shown.
#[derive(Clone, Copy)]
pub struct Before {
    pub steps: u64,
    pub entries: u64,
}

/// Where a run is before the last of its steps whose program counter is an entry before this place. `None` where it
/// shows fewer entries than that. It uses up the run.
pub fn last_before<M: Memory>(
    alloc: Global,
    code: &CodeRegion,
    run: &mut Running<M>,
    place: u64,
) -> Option<Before>
    requires { 0 < place }
    ensures found { IfSome result (λ before. (seen : List Observation) × (t : State)
        × IsLastBefore (code_of code.now) run.old.steps_left (state_of run.old.hart (M.bytes run.old.memory)) place seen
        t
        × (before.steps ≡ length seen)
        × (before.entries ≡ length (entries_of seen))) }
    ensures none { result ≡ None
        → ShowsFewer (code_of code.now) run.old.steps_left (state_of run.old.hart (M.bytes run.old.memory)) place }
{
    let mut left = place;
    for steps in 0..run.steps_left {
        let (seen, stop) = one_step(alloc, code, run);
        let Some(seen) = seen else {
            return None;
        };
        let shown = entry_count(&seen);
        if left <= shown {
            return Some(Before {
                steps,
                entries: place - left,
            });
        }
        if stop.is_some() {
            return None;
        }
        left -= shown;
    }
    None
}

/// Makes so many steps of a run, of which none stops.
pub fn make_steps<M: Memory>(code: &CodeRegion, running: &mut Running<M>, steps: u64)
    requires { steps ≤ running.old.steps_left }
    ensures there { (seen : List Observation) (t : State)
        → Leads (code_of code.now) steps (state_of running.old.hart (M.bytes running.old.memory)) seen t
        → state_of running.new.hart (M.bytes running.new.memory) ≡ t }
    ensures left { running.new.steps_left ≡ running.old.steps_left - steps }
{
    run(
        &mut running.hart,
        code,
        &mut running.memory,
        &mut Unheard,
        steps,
    );
    running.steps_left -= steps;
}
