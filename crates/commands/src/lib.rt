// The commands of `factc`, over files and streams that the caller hands in: they compile a text to an image or to a
// function for C, work out what a text means, run an image, compare what an observer sees of two runs, and say whether
// one run shows the same for all secrets. The exit status of each command is promised, and no status 0 where standard
// output failed. The work is done by the calls of the libraries; the words are read by `command_line`.
#![tactic(auto)]

mod answer;
mod certifying;
mod elf_certifying;
mod elf_listing;
mod elf_witnessing;
mod evaluating;
mod executables;
mod fault;
mod files;
mod foreign_code;
mod function_files;
mod function_words;
mod images;
mod json;
mod measuring;
mod outcome;
mod overwriting;
mod performing;
mod picturing;
mod reading;
mod side_by_side;
mod sources;
mod step_counts;
mod telling;
mod texts;
mod trying;
mod violations;

pub use fault::{Fault, FileFault};
pub use files::Files;
pub use performing::{command, perform};
