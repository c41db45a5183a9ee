// If-converted code: a condition on a secret is taken once into control values, both arms run, and what an arm assigns
// is set under its control value. Branches and loops are left only where what decides them is public. Its outcome is
// that of the body with real branches. How much straight code uses each variable is counted here too. Stands on
// `inline` and `intervals`.
#![tactic(auto)]

mod controls;
mod copies;
mod counted;
mod greatest;
mod laws;
mod nesting;
mod quiet;
mod removal;
mod sizes;
mod straight;
mod term_types;
mod type_checks;
mod uses;

pub use counted::Straight;
pub use greatest::{greatest_of, heaviest, take_greatest};
pub use laws::{quiet_shows_nothing, replaced_is_removed, straight_shows_what_is_public};
pub use nesting::{branch_of, loop_of};
pub use quiet::is_quiet;
pub use removal::remove;
pub use sizes::words_taken;
pub use straight::{StraightCode, StraightStatement};
pub use uses::{count_use, variable_weights, weight_inside};
