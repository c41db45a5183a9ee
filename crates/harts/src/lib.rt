// Several images side by side: their harts over one memory, under every schedule.
//
// It promises what is refused before memory is asked for, and else that the recorder takes exactly what the steps of
// the schedule show, and that the answer says how each hart ended (`specs/RunHarts.antt`). The machine and its steps
// are `rv_machine`'s; how an image is loaded is `hepurita`'s. Above that it promises what images of accepted texts do
// under every schedule (`specs/EverySchedule.antt`).
#![tactic(auto)]

mod bases;
mod checking;
mod ends;
mod fault;
mod laws;
mod loading;
mod running;

pub use bases::{CODE_DISTANCE, FRAME_DISTANCE, MOST_IMAGES};
pub use checking::MOST_TURNS;
pub use ends::HartEnd;
pub use fault::{HartsFault, HartsRule};
pub use laws::{every_schedule, harts_do_what_sources_mean};
pub use running::run_harts;
