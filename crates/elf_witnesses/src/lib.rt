// Two runs of a function of an executable that differ in what is secret alone, and of which an observer sees not the
// same.
//
// `find_witness` looks for them: in each try it draws what is secret in either run, makes the two runs in step and
// compares what they show. That it finds none promises nothing; what `elf_runs` certifies holds for all runs.
#![tactic(auto)]

mod comparing;
mod secrets;
mod witnessing;

pub use comparing::Reached;
pub use witnessing::{Witness, find_witness};
