// Runs in progress, a step at a time.

ghost use Rattle.std.specs.Prelude.{◌≡◌, ◌<◌, List, None, IsSome};
ghost use Rattle.rv_machine.specs.Harts.{state_of};
ghost use Rattle.rv_machine.specs.Leakage.{IsShown, followed_by};
ghost use Rattle.rv_machine.specs.Progress.{MakesProgress};
ghost use Rattle.rv_machine.specs.Regions.{code_of};
ghost use Rattle.rv_machine.specs.declared.observation.Observation.{Observation};

use crate::code::CodeRegion;
use crate::hart::Hart;
use crate::machine::step;
use crate::memory::Memory;
use crate::observation::Observation;
use crate::turn_recorder::TurnRecorder;
use std::alloc::Global;

/// A run in progress: where the machine stands, and how many steps it may still make. A run that has
/// stopped makes no more steps.
#[derive(Drop)]
pub struct Running<M> {
    pub hart: Hart,
    pub memory: M,
    pub steps_left: u64,
}

impl<M: Memory> Running<M> {
    /// Makes the next step, with a recorder made for it, and answers what it shows. `None` where
    /// the run has ended, or ends by a step that shows nothing. It takes no memory.
    #[inline(always)]
    pub fn step(&mut self, alloc: Global, code: &CodeRegion) -> Option<Observation>
        ensures made { MakesProgress (code_of code.now)
            self.old.steps_left (state_of self.old.hart (M.bytes self.old.memory)) result
            self.new.steps_left (state_of self.new.hart (M.bytes self.new.memory)) }
        ensures shown { (rest : List Observation)
            → IsShown (code_of code.now) self.new.steps_left (state_of self.new.hart (M.bytes self.new.memory)) rest
            → IsShown (code_of code.now) self.old.steps_left (state_of self.old.hart (M.bytes self.old.memory))
            (followed_by result rest) }
        ensures ended { result ≡ None → self.new.steps_left ≡ 0 }
        ensures fewer { IsSome result → self.new.steps_left < self.old.steps_left }
    {
        if self.steps_left == 0 {
            return None;
        }
        let mut recorder = TurnRecorder::new(alloc);
        let stop = step(&mut self.hart, code, &mut self.memory, &mut recorder);
        self.steps_left = if stop.is_some() {
            0
        } else {
            self.steps_left - 1
        };
        recorder.first()
    }
}
