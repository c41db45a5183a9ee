// Certified runs: one run of any code in which some bits of registers and bytes are unknown, so that what it shows
// holds of all their values at once.
//
// `certify` makes such a run and answers how it ends: alike whatever the unknown parts hold, or at a step that may go
// by them. It asks of each instruction whether what decides it is known (`changes`), and has the machine make the step
// (`steps`), so what instructions compute is the table of `rv_machine` alone, on which this stands. Which bits of that
// are unknown is a table beside it, with a row for each operation (`bits`).
//
// The laws say that a step of what is known keeps covering each state that it covered, and shows what that state's step
// shows, or says that this may depend on what is unknown; and so do runs (`specs/Known.antt`, `specs/Certified.antt`).
// Where the observer sees by how much registers are shifted, runs that are the same agree on that too
// (`specs/Amounts.antt`).
#![tactic(auto)]

mod bits;
mod certifying;
mod changes;
mod known_parts;
mod laws;
mod shifts;
mod steps;

pub use certifying::{CertifiedEnd, certify};
pub use known_parts::KnownParts;
pub use laws::{
    certified_runs_cover, certified_runs_cut_short_agree, certified_runs_depend_on_what_is_known,
    certified_runs_have_one_end, certified_runs_stop_at_one_place, certified_shifts_agree,
    runs_shift_by_one_list, runs_that_may_differ_begin_alike, steps_keep_covering,
    what_is_known_covers,
};
pub use shifts::Shifts;
