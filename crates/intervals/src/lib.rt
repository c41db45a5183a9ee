// Ranges: each index is within its array, no divisor is 0, and the work of a run is bounded. Stands on
// the body with numbered variables.
#![tactic(auto)]

mod costs;
mod known;
mod laws;
mod limits;
mod narrowing;
mod operators;
mod ranged;
mod ranges;
mod said;
mod terms;
mod walk;
mod work;

pub use costs::program_cost;
pub use language::Interval;
pub use laws::{
    accepted_is_safe, safe_runs_are_within_work, safe_runs_meet_no_fault, strict_runs_are_loose,
};
pub use limits::{MOST_WORK, limits_are_as_stated};
pub use ranged::Ranged;
pub use ranges::{check_ranges, violations};
