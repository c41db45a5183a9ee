// Two runs in step, compared.

ghost use Rattle.std.specs.Prelude.{◌≡◌, ℕ, ◌^◌, ◌<◌, List, IsTrue};
ghost use Rattle.run_reports.specs.progress.GoingOn.{BothGoOn, HasLines, IsTold};
ghost use Rattle.run_reports.specs.Below.{code_of, collected, Compares, entries_of, IsShown, Observation, state_of};

use crate::progress::lines::{ProgressLines, STEPS_A_LINE};
use rv_machine::{CodeRegion, Memory, Pairing, Running, entry_count, first_difference};
use std::alloc::Global;
use streams::Sink;

/// Makes steps of two runs of the same code in step, and compares what they show, as `compare` does. A line goes out
/// behind each `STEPS_A_LINE` steps of each run after which both go on.
// The loop is one of its own: `compare` does not say how many entries it has seen where it finds no difference. So
// `compare` stays compiled as it is, and this one makes its steps one by one.
#[inline(never)]
pub fn compare_telling<M: Memory, E: Sink>(
    alloc: Global,
    code: &CodeRegion,
    one: &mut Running<M>,
    other: &mut Running<M>,
    err: &mut E,
) -> Pairing
    requires few { one.old.steps_left < 2 ^ 63 }
    requires equal { other.old.steps_left ≡ one.old.steps_left }
    ensures compared { (seen seen' : List Observation)
        × IsShown (code_of code.now) one.old.steps_left (state_of one.old.hart (M.bytes one.old.memory)) seen
        × IsShown (code_of code.now) other.old.steps_left (state_of other.old.hart (M.bytes other.old.memory)) seen'
        × Compares (entries_of seen) (entries_of seen') result }
    ensures told { IsTrue E.TELLS
        → IsTold HasLines
        (BothGoOn (code_of code.now) one.old.steps_left (state_of one.old.hart (M.bytes one.old.memory))
        (state_of other.old.hart (M.bytes other.old.memory)))
        (collected (E.taken err.old) (E.failures err.old))
        (collected (E.taken err.new) (E.failures err.new)) }
{
    let mut lines = ProgressLines::new();
    let mut made: u64 = 0;
    let mut place = 0;
    'steps: loop {
        let seen = one.step(alloc, code);
        let seen_other = other.step(alloc, code);
        let Some(seen) = seen else {
            return match seen_other {
                Some(_) => Pairing::Differ(place),
                None => Pairing::Same,
            };
        };
        let Some(seen_other) = seen_other else {
            return Pairing::Differ(place);
        };
        if let Some(entry) = first_difference(&seen, &seen_other) {
            return Pairing::Differ(place + entry);
        }
        place += entry_count(&seen);
        made += 1;
        let is_due = made >= (lines.count + 1) * STEPS_A_LINE;
        if is_due && one.steps_left > 0 && other.steps_left > 0 {
            lines.tell(err);
        }
    }
}
