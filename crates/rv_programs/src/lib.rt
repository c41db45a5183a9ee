// Programs that others made, as the machine runs them: code in several places, which may be read where it is data too,
// and data of which some may only be read. Code is of words, or of halfwords, in which instructions of 16 bits and of
// 32 stand (`specs/Code.antt`).
//
// What an instruction does stays the table of `rv_machine` alone. A step finds the one that stands at the program
// counter, and has the machine execute it by its length and by the alignment of its code; but a store to a byte that
// may not be stored to is an access fault (`specs/Programs.antt`). An image, with one code of words and data that may
// all be stored to, is a program whose steps and runs are those of the machine (`laws.rt`).
//
// A loaded program has segments of code and ranges that may be stored to. Its memory is a `PagedMemory`, whose pages
// may begin with bytes of their own.
#![tactic(auto)]

mod halfwords;
mod laws;
mod loaded;
mod program;
mod steps;

pub use laws::{
    images_are_programs, one_instruction_stands, one_program_run, program_runs_compose,
    programs_have_runs, stores_alone_are_refused,
};
pub use loaded::{CodeSegment, LoadedProgram};
pub use program::{Fetched, Program};
pub use steps::{execute_unrecorded, run, step, step_unrecorded};
