// What a run of the source spends: no more nodes than are counted for the one body that a program becomes. So `eval`
// answers what all passes accept by its outcome. Stands on the meaning as it is worked out, and on that body.

mod laws;

pub use laws::{accepted_programs_are_answered, runs_evaluate_what_is_counted};
