// What a recorder is to several harts.

ghost use Rattle.std.specs.Prelude.{◌≡◌, ℕ, Bool, List, [], ◌∷◌, OnOk, OnErr};
ghost use Rattle.rv_machine.specs.HartRecording.{kept_of};
ghost use Rattle.rv_machine.specs.declared.hart_recording.HartObservation.{HartObservation};
ghost use Rattle.rv_machine.specs.Below.{one_more};

use crate::observation::Observation;
use std::alloc::AllocError;

/// What a step of one hart among others shows, with the hart's number.
#[derive(Clone, Copy)]
pub struct HartObservation {
    pub hart: u8,
    pub observation: Observation,
}

/// Takes observations of harts one at a time, and refuses one only where it is out of memory.
pub trait HartRecorder {
    // Whether what is taken is kept.
    ghost KEEPS: { Bool };

    // What has been kept, from first to last.
    ghost list: { Self → List HartObservation };

    // How often it has refused. The count stays at 2^64 - 1.
    ghost refusals: { Self → ℕ };

    /// Whether what is taken is kept.
    const KEEPS: bool;

    /// Takes an observation of the hart with this number: keeps it as the last one where it keeps
    /// any, or refuses it, keeps nothing of it and counts the refusal.
    fn note(&mut self, hart: u8, o: Observation) -> Result<(), AllocError>
        ensures taken { OnOk result (list self.new
            ≡ kept_of KEEPS (list self.old) (record { hart = hart; observation = o } ∷ [])) }
        ensures calm { OnOk result (refusals self.new ≡ refusals self.old) }
        ensures refused { OnErr result (list self.new ≡ list self.old) }
        ensures counted { OnErr result (refusals self.new ≡ one_more (refusals self.old)) };
}
