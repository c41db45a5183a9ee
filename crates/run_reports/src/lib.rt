// What is said of runs, whatever code they are of: where in a run an entry is shown (`run_places`), how many steps a
// run has made so far (`progress`), where what is unknown of registers comes from (`origins`), and what runs show as a
// picture (`pictures`). Each promises exactly what it says, by the steps of the machine. It stands on `rv_machine` and
// `certified_runs`, which make the runs, and on `streams`.
#![tactic(auto)]

pub mod origins;
pub mod pictures;
pub mod progress;
pub mod run_places;
