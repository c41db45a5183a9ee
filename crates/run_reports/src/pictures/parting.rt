// How long runs are, and in which step two of them part.

ghost use Rattle.std.specs.Prelude.{◌≡◌, ◌≤◌, ◌∷◌, [], length};
ghost use Rattle.run_reports.specs.Below.{entries_of};
ghost use Rattle.run_reports.specs.pictures.Parting.{same_events, shows_same, first_of, parting_in};

use crate::pictures::marks::is_event;
use rv_machine::{Event, Observation};

/// How many entries an observation is.
pub fn entries_in(seen: Observation) -> u64
    ensures exact { result ≡ length (entries_of (seen ∷ [])) }
    ensures few { result ≤ 2 }
{
    match seen.event {
        Some(_) => 2,
        None => 1,
    }
}

/// Whether two runs show the same event in a step, or none.
fn same_events(one: Option<Event>, other: Option<Event>) -> bool
    ensures { result ≡ same_events one other }
{
    match one {
        Some(event) => is_event(event, other),
        None => other.is_none(),
    }
}

/// Whether two runs show the same in a step.
fn shows_same(one: Option<Observation>, other: Option<Observation>) -> bool
    ensures { result ≡ shows_same one other }
{
    match (one, other) {
        (Some(one), Some(other)) => one.pc == other.pc && same_events(one.event, other.event),
        (None, None) => true,
        _ => false,
    }
}

/// The first step in which two runs part, where they have parted in this one, or do it in this step.
pub fn parting_at(
    parting: Option<u64>,
    step: u64,
    one: Option<Observation>,
    other: Option<Observation>,
) -> Option<u64>
    ensures { result ≡ first_of parting (parting_in step one other) }
{
    if parting.is_none() && !shows_same(one, other) {
        Some(step)
    } else {
        parting
    }
}
