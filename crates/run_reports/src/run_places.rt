// Where in a run an entry is shown: the last step before it, what the instruction of that step reads, and the entry
// itself, or the stop where there are no more.
//
// A run is made anew for each question, and nothing of it is kept (`Places.antt` and `Shown.antt` of
// `specs/run_places`). It stands on the machine of `rv_machine`.

mod laws;
mod reads;
mod shown;
mod steps;

pub use laws::{
    a_difference_is_reached, a_word_before_a_place, one_step_before_a_difference,
    places_behind_steps,
};
pub use reads::registers_at;
pub use shown::{Shown, shown_at};
pub use steps::{Before, last_before, make_steps};
