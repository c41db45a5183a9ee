// The machine that runs the compiler's code: all of RV32IM over a memory, and what an observer sees.
//
// It promises that `step` makes one step of the machine (`specs/Machine.antt`) and records what that
// step shows (`specs/Leakage.antt`), that `run` makes steps up to the first one that stops or to its
// budget, both for any lawful memory and recorder, and that the memories and recorders here are
// lawful. What a step shows goes by the profile of the code: in profile 2 the operands of
// multiplications are shown too. It stands on `rv_code`, which says what instruction
// a word is and what its operation computes.
#![tactic(auto)]

pub mod code;
pub mod effects;
pub mod flat;
pub mod hart;
pub mod hart_recorders;
pub mod hart_recording;
pub mod laws;
pub mod machine;
pub mod memory;
pub mod observation;
pub mod paged;
mod pairing;
pub mod plans;
pub mod recorders;
pub mod recording;
mod running;
pub mod stops;
pub mod system;
pub mod turn_recorder;

pub use code::{CodeRegion, CodeWord};
pub use effects::{Effect, address, load_size, store_size};
pub use flat::FlatMemory;
pub use hart::Hart;
pub use hart_recorders::ListHartRecorder;
pub use hart_recording::{HartObservation, HartRecorder};
pub use machine::{execute, execute_unrecorded, run, step, step_unrecorded};
pub use memory::{Memory, Size};
pub use observation::{Event, Observation};
pub use paged::{AddressRange, PagedMemory};
pub use pairing::{Pairing, compare, entry_count, first_difference};
pub use plans::InstructionForm;
pub use recorders::{ListRecorder, NullRecorder};
pub use recording::Recorder;
pub use running::Running;
pub use stops::Stop;
pub use system::{RunningHart, RunningHarts};
pub use turn_recorder::TurnRecorder;
