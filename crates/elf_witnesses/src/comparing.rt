// Two runs in step, and the first entry at which what they show differs.

ghost use Rattle.std.specs.Prelude.{◌≡◌, ◌≢◌, ◌<◌, ◌^◌, List, None, IsSome};
ghost use Rattle.elf_witnesses.specs.Below.{followed_by, Observation, state_of};
ghost use Rattle.elf_witnesses.specs.Compared.{Compares, IsShown};

use rv_machine::{Memory, Observation, Running, entry_count, first_difference};
use rv_programs::{Program, step_unrecorded};

/// A step of a run: how many entries the steps before it have shown, and its program counter.
#[derive(Clone, Copy, Debug, PartialEq, Eq)]
pub struct Reached {
    pub entries: u64,
    pub pc: u32,
}

/// What the lists that an observer sees of two runs are to each other.
#[derive(Clone, Copy, Debug, PartialEq, Eq)]
pub enum Comparison {
    /// They have the same entries.
    Same,
    /// They differ first at this entry, counted from 0; the end of the shorter list counts as one. The step is the last
    /// one of the first run that begins before it.
    Differ { entry: u64, step: Reached },
}

/// Makes the next step of a run, and answers what it shows. `None` where the run has ended, or ends by a step that
/// shows nothing. It takes no memory.
#[inline(always)]
fn next_step<P: Program, M: Memory>(program: &P, run: &mut Running<M>) -> Option<Observation>
    ensures shown { (rest : List Observation)
        → IsShown (P.program program.now) run.new.steps_left (state_of run.new.hart (M.bytes run.new.memory)) rest
        → IsShown (P.program program.now) run.old.steps_left (state_of run.old.hart (M.bytes run.old.memory))
        (followed_by result rest) }
    ensures ended { result ≡ None → run.new.steps_left ≡ 0 }
    ensures fewer { IsSome result → run.new.steps_left < run.old.steps_left }
{
    if run.steps_left == 0 {
        return None;
    }
    let (seen, stop) = step_unrecorded(&mut run.hart, program, &mut run.memory);
    run.steps_left = if stop.is_some() {
        0
    } else {
        run.steps_left - 1
    };
    seen
}

/// Makes steps of two runs, each of a program of its own, one of each after the other, and compares what they show. It
/// answers at the first difference, or where both have ended. It takes no memory.
pub(crate) fn compare<P: Program, M: Memory>(
    program: &P,
    one: &mut Running<M>,
    other_program: &P,
    other: &mut Running<M>,
) -> Comparison
    requires { one.old.steps_left < 2 ^ 63 }
    ensures { (seen seen' : List Observation)
        × IsShown (P.program program.now) one.old.steps_left (state_of one.old.hart (M.bytes one.old.memory)) seen
        × IsShown (P.program other_program.now) other.old.steps_left
        (state_of other.old.hart (M.bytes other.old.memory)) seen'
        × Compares seen seen' result }
{
    let mut place = 0;
    let mut last = Reached {
        entries: 0,
        pc: one.hart.pc(),
    };
    'steps: loop {
        let Some(seen) = next_step(program, one) else {
            return match next_step(other_program, other) {
                Some(_) => Comparison::Differ {
                    entry: place,
                    step: last,
                },
                None => Comparison::Same,
            };
        };
        let here = Reached {
            entries: place,
            pc: seen.pc,
        };
        let Some(seen_other) = next_step(other_program, other) else {
            return Comparison::Differ {
                entry: place,
                step: last,
            };
        };
        if let Some(entry) = first_difference(&seen, &seen_other) {
            let step = if entry == 0 { last } else { here };
            return Comparison::Differ {
                entry: place + entry,
                step,
            };
        }
        last = here;
        place += entry_count(&seen);
    }
}
