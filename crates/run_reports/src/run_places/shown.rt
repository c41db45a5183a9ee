// What a run shows, entry by entry.

ghost use Rattle.std.specs.Prelude.{◌≡◌, ◌≤◌, ◌∷◌, [], length, slice_get, None, Some, IfOk, IfErr, ◌+◌};
ghost use Rattle.std.specs.Option.{option_map};
ghost use Rattle.run_reports.specs.Below.{code_of, entries_of, listed, state_of};
ghost use Rattle.run_reports.specs.run_places.Shown.{shown_entry, ShowsAt};

use crate::run_places::steps::one_step;
use rv_machine::{CodeRegion, Event, Memory, Observation, Running, Stop, entry_count};
use std::alloc::Global;

/// What a run shows at a place.
#[derive(Clone, Copy)]
pub enum Shown {
    /// The entry for a step's program counter.
    ProgramCounter(u32),
    /// The entry for what a step shows besides.
    HasEvent(Event),
    /// No entry: the run has stopped so.
    Stopped(Stop),
}

/// One of a step's entries, of which the one for the program counter is at 0. `None` where there is none at that place.
fn entry_at(seen: &Observation, place: u64) -> Option<Shown>
    ensures entry { result ≡ option_map shown_entry (slice_get (entries_of (seen.now ∷ [])) place) }
    ensures past { result ≡ None → length (entries_of (seen.now ∷ [])) ≤ place }
{
    if place == 0 {
        return Some(Shown::ProgramCounter(seen.pc));
    }
    if place > 1 {
        return None;
    }
    match seen.event {
        Some(event) => Some(Shown::HasEvent(event)),
        None => None,
    }
}

/// What a step shows at a place, or else how many entries are before the place behind those of the step.
fn entry_or_rest(seen: Option<Observation>, place: u64) -> Result<Shown, u64>
    ensures entry { IfOk result (λ shown.
        option_map shown_entry (slice_get (entries_of (listed seen)) place) ≡ Some shown) }
    ensures rest { IfErr result (λ rest. length (entries_of (listed seen)) + rest ≡ place) }
{
    let Some(seen) = seen else {
        return Err(place);
    };
    match entry_at(&seen, place) {
        Some(shown) => Ok(shown),
        None => Err(place - entry_count(&seen)),
    }
}

/// What a run shows at a place, counted in entries from 0. It uses up the run.
pub fn shown_at<M: Memory>(
    alloc: Global,
    code: &CodeRegion,
    run: &mut Running<M>,
    place: u64,
) -> Shown
    ensures { ShowsAt (code_of code.now) run.old.steps_left (state_of run.old.hart (M.bytes run.old.memory)) place
        result }
{
    let mut left = place;
    for _step in 0..run.steps_left {
        let (seen, stop) = one_step(alloc, code, run);
        match entry_or_rest(seen, left) {
            Ok(shown) => return shown,
            Err(rest) => left = rest,
        }
        if let Some(stop) = stop {
            return Shown::Stopped(stop);
        }
    }
    Shown::Stopped(Stop::Budget)
}
