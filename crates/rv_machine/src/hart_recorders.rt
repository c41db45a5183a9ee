// The plain recorder of several harts.

ghost use Rattle.std.specs.Prelude.{◌≡◌, true, []};
ghost use Rattle.rv_machine.specs.Below.{one_more};

use crate::hart_recording::{HartObservation, HartRecorder};
use crate::observation::Observation;
use std::alloc::{AllocError, Global};
use std::marker::Model;

/// Keeps every observation of several harts.
#[derive(Drop)]
pub struct ListHartRecorder {
    items: Vec<HartObservation>,
    refusals: u64,
}

impl Model for ListHartRecorder {
    ghost use Rattle.rv_machine.specs.HartRecording.{HartRecorded};

    ghost Value = { HartRecorded };

    ghost view = { λ r. record { kept = r.items.items; refusals = r.refusals } };
}

impl ListHartRecorder {
    ghost use Rattle.rv_machine.specs.HartRecording.{hart_recorded, hart_refused};

    /// One with an empty list. The list takes its memory from this allocator.
    pub fn new(alloc: Global) -> ListHartRecorder
        ensures empty { hart_recorded result ≡ [] }
        ensures none_refused { hart_refused result ≡ 0 }
    {
        ListHartRecorder {
            items: Vec::new(alloc),
            refusals: 0,
        }
    }

    /// What has been kept, from first to last.
    pub fn list(&self) -> &[HartObservation]
        ensures { result.now ≡ hart_recorded self.now }
    {
        self.items.as_slice()
    }
}

impl HartRecorder for ListHartRecorder {
    ghost use Rattle.rv_machine.specs.HartRecording.{hart_recorded, hart_refused};

    ghost KEEPS = { true };

    ghost list = { hart_recorded };

    ghost refusals = { hart_refused };

    const KEEPS: bool = true;

    fn note(&mut self, hart: u8, o: Observation) -> Result<(), AllocError> {
        match self.items.push(HartObservation {
            hart,
            observation: o,
        }) {
            Ok(()) => Ok(()),
            Err(refusal) => {
                self.refusals = self.refusals.saturating_add(1);
                Err(AllocError::from(refusal))
            }
        }
    }
}
