// The two plain recorders.

ghost use Rattle.std.specs.Prelude.{◌≡◌, true, false, []};
ghost use Rattle.rv_machine.specs.Below.{one_more};

use crate::observation::Observation;
use crate::recording::Recorder;
use std::alloc::{AllocError, Global};
use std::marker::Model;

/// Keeps every observation.
#[derive(Drop)]
pub struct ListRecorder {
    items: Vec<Observation>,
    refusals: u64,
}

impl Model for ListRecorder {
    ghost use Rattle.std.specs.Prelude.{◌-◌, vec_len, vec_capacity};
    ghost use Rattle.rv_machine.specs.ListRecording.{Recorded};

    ghost Value = { Recorded };

    ghost view = { λ r. record {
      kept = r.items.items;
      refusals = r.refusals;
      room = vec_capacity r.items - vec_len r.items;
    } };
}

impl ListRecorder {
    ghost use Rattle.rv_machine.specs.ListRecording.{recorded, refused};

    /// One with an empty list. The list takes its memory from this allocator.
    pub fn new(alloc: Global) -> ListRecorder
        ensures empty { recorded result ≡ [] }
        ensures none_refused { refused result ≡ 0 }
    {
        ListRecorder {
            items: Vec::new(alloc),
            refusals: 0,
        }
    }

    /// What has been kept, from first to last.
    pub fn list(&self) -> &[Observation]
        ensures { result.now ≡ recorded self.now }
    {
        self.items.as_slice()
    }
}

impl Recorder for ListRecorder {
    ghost use Rattle.rv_machine.specs.ListRecording.{recorded, refused, has_room};

    ghost KEEPS = { true };

    ghost list = { recorded };

    ghost refusals = { refused };

    ghost is_ready = { has_room };

    const KEEPS: bool = true;

    fn note(&mut self, o: Observation) -> Result<(), AllocError> {
        match self.items.push(o) {
            Ok(()) => Ok(()),
            Err(refusal) => {
                self.refusals = self.refusals.saturating_add(1);
                Err(AllocError::from(refusal))
            }
        }
    }
}

/// Keeps nothing, and never refuses.
#[derive(Clone, Copy)]
pub struct NullRecorder;

impl Recorder for NullRecorder {
    ghost KEEPS = { false };

    ghost list = { λ _. [] };

    ghost refusals = { λ _. 0 };

    ghost is_ready = { λ _ _. Unit {0} };

    const KEEPS: bool = false;

    fn note(&mut self, _o: Observation) -> Result<(), AllocError> {
        Ok(())
    }
}
