// Several harts over one memory, a step of one at a time.

ghost use Rattle.std.specs.Prelude.{◌≡◌, ℕ, ◌<◌, length, ◌∷◌, [], All, OnOk, OnErr};
ghost use Rattle.rv_machine.specs.Leakage.{followed_by};
ghost use Rattle.rv_machine.specs.Recording.{HasRefused};
ghost use Rattle.rv_machine.specs.RunningHarts.{member_now, system_now, Followed, CutShort};
ghost use Rattle.rv_machine.specs.System.{MemberStep, FollowsSchedule, shown_by};

use crate::code::CodeRegion;
use crate::hart::Hart;
use crate::hart_recording::HartRecorder;
use crate::machine::step;
use crate::memory::Memory;
use crate::observation::Observation;
use crate::stops::Stop;
use crate::turn_recorder::TurnRecorder;
use std::alloc::{AllocError, Global};

/// A hart with the code that it alone runs, and how it has stopped, if it has.
#[derive(Drop)]
pub struct RunningHart {
    pub hart: Hart,
    pub code: CodeRegion,
    pub stop: Option<Stop>,
}

impl RunningHart {
    /// Makes the hart's next step over a memory, and answers what it shows. A hart that has stopped
    /// does nothing and shows nothing. It takes no memory.
    pub fn step<M: Memory>(&mut self, alloc: Global, memory: &mut M) -> Option<Observation>
        ensures { MemberStep (M.bytes memory.old) (member_now self.old) (followed_by result []) (M.bytes memory.new)
            (member_now self.new) }
    {
        if self.stop.is_some() {
            return None;
        }
        let mut recorder = TurnRecorder::new(alloc);
        self.stop = step(&mut self.hart, &self.code, memory, &mut recorder);
        recorder.first()
    }
}

/// Harts over one memory, each by its number from 0.
#[derive(Drop)]
pub struct RunningHarts<M> {
    pub harts: Vec<RunningHart>,
    pub memory: M,
}

impl<M: Memory> RunningHarts<M> {
    /// Makes the next step of the hart with this number, and answers what it shows.
    fn step(&mut self, alloc: Global, number: u8) -> Option<Observation>
        requires { number < length self.now.harts.items }
        ensures step { FollowsSchedule (number ∷ [])
            (system_now self.old.harts.items (M.bytes self.old.memory)) (shown_by number (followed_by result []))
            (system_now self.new.harts.items (M.bytes self.new.memory)) }
        ensures count { length self.new.harts.items ≡ length self.old.harts.items }
    {
        let hart = &mut self.harts[usize::from(number)];
        hart.step(alloc, &mut self.memory)
    }

    /// Makes one step of each hart that the schedule names, in its order. The recorder takes what the
    /// steps show, each with its hart's number. Where the recorder refuses it, the rest of the
    /// schedule is not followed.
    pub fn follow<R: HartRecorder>(
        &mut self,
        alloc: Global,
        schedule: &[u8],
        recorder: &mut R,
    ) -> Result<(), AllocError>
        requires { All (λ number. number < length self.now.harts.items) schedule.now }
        ensures followed { OnOk result (Followed R.KEEPS schedule.now
            (system_now self.old.harts.items (M.bytes self.old.memory)) (R.list recorder.old)
            (system_now self.new.harts.items (M.bytes self.new.memory)) (R.list recorder.new)) }
        ensures calm { OnOk result (R.refusals recorder.new ≡ R.refusals recorder.old) }
        ensures cut_short { OnErr result (CutShort R.KEEPS schedule.now
            (system_now self.old.harts.items (M.bytes self.old.memory)) (R.list recorder.old) (R.list recorder.new)) }
        ensures refused { OnErr result (HasRefused (R.refusals recorder.old) (R.refusals recorder.new)) }
        ensures count { length self.new.harts.items ≡ length self.old.harts.items }
    {
        for &number in schedule {
            if let Some(observation) = self.step(alloc, number) {
                recorder.note(number, observation)?;
            }
        }
        Ok(())
    }
}
