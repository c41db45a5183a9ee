// The recorder of one step.

ghost use Rattle.std.specs.Prelude.{◌≡◌, [], slice_get};
ghost use Rattle.rv_machine.specs.ListRecording.{recorded, refused, has_room};
ghost use Rattle.rv_machine.specs.Below.{one_more};

use crate::observation::Observation;
use crate::recording::Recorder;
use smallvec::SmallVec;
use std::alloc::{AllocError, Global};
use std::marker::Model;

/// Keeps observations, the first of them in itself: for one step it takes no memory.
#[derive(Drop)]
pub struct TurnRecorder {
    seen: SmallVec<Observation, 1>,
    refusals: u64,
}

impl Model for TurnRecorder {
    ghost use Rattle.std.specs.Prelude.{◌-◌};
    ghost use Rattle.smallvec.specs.SmallVec.{small_vec_len};
    ghost use Rattle.rv_machine.specs.ListRecording.{Recorded};

    ghost Value = { Recorded };

    ghost view = { λ r. record {
      kept = r.seen.items;
      refusals = r.refusals;
      room = r.seen.capacity - small_vec_len r.seen;
    } };
}

impl TurnRecorder {
    /// One that has kept nothing yet. What goes beyond one observation takes its memory from this
    /// allocator.
    pub fn new(alloc: Global) -> TurnRecorder
        ensures empty { recorded result ≡ [] }
        ensures none_refused { refused result ≡ 0 }
        ensures ready { has_room result 1 }
    {
        TurnRecorder {
            seen: SmallVec::new(alloc),
            refusals: 0,
        }
    }

    /// What has been kept, from first to last.
    pub fn seen(&self) -> &[Observation]
        ensures { result.now ≡ recorded self.now }
    {
        self.seen.as_slice()
    }

    /// The first of what has been kept.
    pub fn first(&self) -> Option<Observation>
        ensures { result ≡ slice_get (recorded self.now) 0 }
    {
        self.seen.as_slice().first().copied()
    }
}

impl Recorder for TurnRecorder {
    ghost use Rattle.std.specs.Prelude.{true};
    ghost use Rattle.rv_machine.specs.ListRecording.{recorded, refused, has_room};

    ghost KEEPS = { true };

    ghost list = { recorded };

    ghost refusals = { refused };

    ghost is_ready = { has_room };

    const KEEPS: bool = true;

    #[inline(always)]
    fn note(&mut self, o: Observation) -> Result<(), AllocError> {
        match self.seen.push(o) {
            Ok(()) => Ok(()),
            Err(refusal) => {
                self.refusals = self.refusals.saturating_add(1);
                Err(AllocError::from(refusal))
            }
        }
    }
}
