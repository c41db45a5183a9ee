// Two runs in step, and the first place at which what they show differs.

ghost use Rattle.std.specs.Prelude.{◌≡◌, ◌↔◌, ℕ, ◌<◌, ◌^◌, List, ◌∷◌, [], None, length, IsTrue, IfSome};
ghost use Rattle.rv_machine.specs.Entries.{entries_of, IsFirstDifference, Compares};
ghost use Rattle.rv_machine.specs.Harts.{state_of};
ghost use Rattle.rv_machine.specs.Leakage.{IsShown};
ghost use Rattle.rv_machine.specs.PairingText.{pairing_text};
ghost use Rattle.rv_machine.specs.Progress.{MakesProgress, EndTogether, Part};
ghost use Rattle.rv_machine.specs.Regions.{code_of};
ghost use Rattle.rv_machine.specs.declared.observation.Observation.{Observation};

use crate::code::CodeRegion;
use crate::memory::Memory;
use crate::observation::{Event, Observation};
use crate::running::Running;
use std::alloc::Global;
use std::fmt;

/// What the lists that an observer sees of two runs are to each other.
#[derive(Clone, Copy, Debug, PartialEq, Eq)]
pub enum Pairing {
    /// They have the same entries.
    Same,
    /// They differ first at this place, counted in entries from 0. The end of the shorter list
    /// counts as such a place.
    Differ(u64),
}

impl fmt::Display for Pairing {
    ghost use Rattle.std.specs.Prelude.{Some};

    ghost output = { λ pairing. Some (pairing_text pairing) };

    fn fmt<W: fmt::Write>(&self, f: &mut fmt::Formatter<W>) -> fmt::Result {
        match *self {
            Pairing::Same => f.write_str("same"),
            Pairing::Differ(place) => write!(f, "differ at {place}"),
        }
    }
}

// Whether two steps show the same besides their program counters.
fn is_same_event(one: Option<Event>, other: Option<Event>) -> bool
    ensures { IsTrue result ↔ (one ≡ other) }
{
    one == other
}

/// How many entries an observation has.
pub fn entry_count(seen: &Observation) -> u64
    ensures { result ≡ length (entries_of (seen.now ∷ [])) }
{
    if seen.event.is_some() { 2 } else { 1 }
}

/// At which of their entries two observations differ first, `None` where they are equal. The entry
/// for the program counter is 0, the one for the event 1.
pub fn first_difference(one: &Observation, other: &Observation) -> Option<u64>
    ensures equal { result ≡ None → one.now ≡ other.now }
    ensures differ { IfSome result (λ entry. (ones others : List Observation)
        → IsFirstDifference (entries_of (one.now ∷ ones)) (entries_of (other.now ∷ others)) entry) }
    ensures early { IfSome result (λ entry. entry < 2) }
{
    if one.pc != other.pc {
        Some(0)
    } else if is_same_event(one.event, other.event) {
        None
    } else {
        Some(1)
    }
}

// Makes the next step of a run where the other one has shown all, and answers what it shows.
#[cold]
#[inline(never)]
fn last_step<M: Memory>(
    alloc: Global,
    code: &CodeRegion,
    run: &mut Running<M>,
) -> Option<Observation>
    ensures made { MakesProgress (code_of code.now)
        run.old.steps_left (state_of run.old.hart (M.bytes run.old.memory)) result
        run.new.steps_left (state_of run.new.hart (M.bytes run.new.memory)) }
    ensures ended { result ≡ None → run.new.steps_left ≡ 0 }
{
    run.step(alloc, code)
}

/// Makes steps of two runs of the same code, one of each after the other, and compares what they show.
/// It answers at the first difference, or where both have ended. No list is kept.
pub fn compare<M: Memory>(
    alloc: Global,
    code: &CodeRegion,
    one: &mut Running<M>,
    other: &mut Running<M>,
) -> Pairing
    requires { one.old.steps_left < 2 ^ 63 }
    ensures compared { (seen seen' : List Observation)
        × IsShown (code_of code.now) one.old.steps_left (state_of one.old.hart (M.bytes one.old.memory)) seen
        × IsShown (code_of code.now) other.old.steps_left (state_of other.old.hart (M.bytes other.old.memory)) seen'
        × Compares (entries_of seen) (entries_of seen') result }
    ensures ended { result ≡ Pairing.Same → EndTogether (code_of code.now)
        one.old.steps_left (state_of one.old.hart (M.bytes one.old.memory))
        one.new.steps_left (state_of one.new.hart (M.bytes one.new.memory))
        other.old.steps_left (state_of other.old.hart (M.bytes other.old.memory))
        other.new.steps_left (state_of other.new.hart (M.bytes other.new.memory)) }
    ensures parted { (place : ℕ) → result ≡ Pairing.Differ place → Part (code_of code.now)
        one.old.steps_left (state_of one.old.hart (M.bytes one.old.memory))
        one.new.steps_left (state_of one.new.hart (M.bytes one.new.memory))
        other.old.steps_left (state_of other.old.hart (M.bytes other.old.memory))
        other.new.steps_left (state_of other.new.hart (M.bytes other.new.memory)) place }
{
    let mut place = 0;
    'steps: loop {
        let Some(seen) = one.step(alloc, code) else {
            return match last_step(alloc, code, other) {
                Some(_) => Pairing::Differ(place),
                None => Pairing::Same,
            };
        };
        let Some(seen_other) = other.step(alloc, code) else {
            return Pairing::Differ(place);
        };
        if let Some(entry) = first_difference(&seen, &seen_other) {
            return Pairing::Differ(place + entry);
        }
        place += entry_count(&seen);
    }
}
