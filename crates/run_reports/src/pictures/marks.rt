// The marks of what two runs show in a step.

ghost use Rattle.std.specs.Prelude.{◌≡◌};
ghost use Rattle.run_reports.specs.pictures.Marks.{same_event, is_event, other_counter, other_event, place_of_event};
ghost use Rattle.run_reports.specs.pictures.Marks.{cell_of_event, counter_mark, event_mark};

use crate::pictures::cells::{Cell, CellMark, Side};
use rv_machine::{Event, Observation};

/// Whether two events are the same.
fn is_same(one: Event, other: Event) -> bool
    ensures { result ≡ same_event one other }
{
    match (one, other) {
        (Event::Load(a, n), Event::Load(b, m)) => a == b && n.bytes() == m.bytes(),
        (Event::Store(a, n), Event::Store(b, m)) => a == b && n.bytes() == m.bytes(),
        (Event::Div(a, b), Event::Div(c, d)) => a == c && b == d,
        (Event::Mul(a, b), Event::Mul(c, d)) => a == c && b == d,
        _ => false,
    }
}

/// Whether an event is shown.
pub fn is_event(event: Event, shown: Option<Event>) -> bool
    ensures { result ≡ is_event event shown }
{
    match shown {
        Some(shown) => is_same(event, shown),
        None => false,
    }
}

/// Whether the other run does not show this program counter in a step.
fn is_other_counter(pc: u32, beside: Option<Observation>) -> bool
    ensures { result ≡ other_counter pc beside }
{
    match beside {
        Some(seen) => pc != seen.pc,
        None => true,
    }
}

/// Whether the other run does not show this event in a step.
fn is_other_event(event: Event, beside: Option<Observation>) -> bool
    ensures { result ≡ other_event event beside }
{
    match beside {
        Some(seen) => !is_event(event, seen.event),
        None => true,
    }
}

/// Where an event is marked that is shown at a program counter.
fn place_of_event(pc: u32, event: Event) -> u32
    ensures { result ≡ place_of_event pc event }
{
    match event {
        Event::Load(a, _) | Event::Store(a, _) => a,
        Event::Div(..) | Event::Mul(..) => pc,
    }
}

/// As what an event is marked.
fn cell_of_event(event: Event) -> Cell
    ensures { result ≡ cell_of_event event }
{
    match event {
        Event::Load(..) => Cell::LOADED,
        Event::Store(..) => Cell::STORED,
        Event::Div(..) | Event::Mul(..) => Cell::FETCHED,
    }
}

/// The mark of the program counter that a run shows in a step, beside what the other run shows in it.
pub fn counter_mark(
    step: u64,
    side: Side,
    seen: Observation,
    beside: Option<Observation>,
) -> CellMark
    ensures { result ≡ counter_mark step side seen beside }
{
    CellMark {
        step,
        address: seen.pc,
        cell: Cell::FETCHED.joined(Cell::difference(side, is_other_counter(seen.pc, beside))),
    }
}

/// The mark of an event that a run shows in a step at a program counter, beside what the other run shows in it.
pub fn event_mark(
    step: u64,
    side: Side,
    pc: u32,
    event: Event,
    beside: Option<Observation>,
) -> CellMark
    ensures { result ≡ event_mark step side pc event beside }
{
    let difference = Cell::difference(side, is_other_event(event, beside));
    CellMark {
        step,
        address: place_of_event(pc, event),
        cell: cell_of_event(event).joined(difference),
    }
}
