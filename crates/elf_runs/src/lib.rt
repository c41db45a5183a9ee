// Runs of a function of an executable: what they begin with, how they end, and what an observer sees of all of them.
//
// `prepare` gives the state in which a run of a function of a program that `elf` read begins, as a user asks for it:
// with these arguments, these objects secret, these bytes in memory, a stack of this size. It says of each register and
// each byte which of its bits are not known: of most registers and the stack none is known, since nobody has set them.
// A request that the program does not meet is refused, and the first part of it that is wrong named
// (`specs/Needs.antt`). `program_code` gives what a program's segments have of code: words, or halfwords where
// instructions of 16 bits may stand in it. `load_function` puts both into a machine (`specs/Loading.antt`).
//
// `certify_function` makes one run for all that is not known, and its answer is a promise on every run that begins in a
// state which agrees with what is known (`laws.rt`). Where an entry may differ, `calls_to` gives the calls that lead
// there.
//
// What registers and memory hold at the beginning stands in `elf_memory`, whose types are passed on here.
#![tactic(auto)]

mod arguments;
mod calls;
mod certifying;
mod code;
mod fault;
mod laws;
mod loaded_code;
mod loading;
mod needs;
mod objects;
mod options;
mod settings;
mod stack;
mod starting;

pub use calls::{Calls, calls_behind_entries, calls_to};
pub use certifying::{FunctionCertificate, certificate_at, certify_function};
pub use code::program_code;
pub use elf_memory::{
    Argument, Asked, FunctionStop, MemoryRange, RETURN_ADDRESS, STACK_END, Secret, Setting, Word,
};
pub use fault::{Part, StartFault, Unmet};
pub use laws::{
    certificates_of_functions_hold, function_certificates_agree, segments_end_below_the_stack,
};
pub use loaded_code::{Code, PlacedHalfwords, PlacedWords};
pub use loading::{LoadedFunction, load_function};
pub use options::RunOptions;
pub use starting::{Start, prepare};
