// What a run of a function of an executable is asked to begin with, what its registers and its memory then hold, and
// how it stops.
//
// `Registers::new` gives what the registers hold, and `loaded_segments` the ranges of memory that a program has;
// `set_object` puts bytes in them, and `hide_object` makes an object secret. A `Word` or a `MemoryRange` has a mask of
// the bits that are not known: of most registers none is, since nobody has set them. To a machine, ranges are a memory
// (`memory_of`), the masks beside it (`marks_of`) and the addresses that may be stored to (`variable_ranges`).
// `FunctionStop::of` tells a run that came back to its caller from one that stopped before.
//
// How a run is put together from these, and what an observer sees of it, is said by the crates that stand on this one.
#![tactic(auto)]

mod addresses;
mod asked;
mod machine_memory;
mod memory;
mod memory_range;
mod registers;
mod stops;
mod words;

pub use addresses::{RETURN_ADDRESS, STACK_END, rounded, stack_pointer};
pub use asked::{Argument, Asked, Secret, Setting};
pub use machine_memory::{marks_of, memory_of, variable_ranges};
pub use memory::{hide_object, loaded_segments, set_object};
pub use memory_range::MemoryRange;
pub use registers::{Registers, global_pointer};
pub use stops::FunctionStop;
pub use words::Word;
