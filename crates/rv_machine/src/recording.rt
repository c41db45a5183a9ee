// What a recorder is to the machine.

ghost use Rattle.std.specs.Prelude.{◌≡◌, ℕ, ◌+◌, Bool, List, [], ◌∷◌, IsOk, OnOk, OnErr};
ghost use Rattle.rv_machine.specs.Recording.{kept};
ghost use Rattle.rv_machine.specs.Below.{one_more};
ghost use Rattle.rv_machine.specs.declared.observation.Observation.{Observation};

use crate::observation::Observation;
use std::alloc::AllocError;

/// Takes observations one at a time, and refuses one only where it is out of memory.
pub trait Recorder {
    // Whether what is taken is kept.
    ghost KEEPS: { Bool };

    // What has been kept, from first to last.
    ghost list: { Self → List Observation };

    // How often it has refused. The count stays at 2^64 - 1.
    ghost refusals: { Self → ℕ };

    // It takes so many observations with no memory asked for.
    ghost is_ready: { Self → ℕ → Type 0 };

    /// Whether what is taken is kept.
    const KEEPS: bool;

    /// Takes an observation: keeps it as the last one where it keeps any, or refuses it, keeps
    /// nothing of it and counts the refusal.
    fn note(&mut self, o: Observation) -> Result<(), AllocError>
        ensures taken { OnOk result (list self.new ≡ kept KEEPS (list self.old) (o ∷ [])) }
        ensures calm { OnOk result (refusals self.new ≡ refusals self.old) }
        ensures refused { OnErr result (list self.new ≡ list self.old) }
        ensures counted { OnErr result (refusals self.new ≡ one_more (refusals self.old)) }
        ensures ready { (n : ℕ) → is_ready self.old (n + 1) → IsOk result }
        ensures stays_ready { (n : ℕ) → is_ready self.old (n + 1) → is_ready self.new n };
}
