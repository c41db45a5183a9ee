// Programs as compilers and linkers make them: ELF executables for RV32. `read` gives the program that the bytes of a
// file spell, or the first fault and the byte at which it stands, by checks that `specs/` lists in the order of the
// file; what a program has is read from the segments that are loaded and from the symbol table. Segments are slices of
// the file, and nothing grows by more than the file is long. Its numbers are those of `byteorder`'s definitions.
#![tactic(auto)]

mod checks;
mod fault;
mod header;
mod laws;
mod lookup;
mod names;
mod numbers;
mod program;
mod program_header;
mod reading;
mod section;
mod segment;
mod symbol;

pub use fault::{ElfFault, ElfRule};
pub use laws::segments_lie_apart;
pub use program::Program;
pub use reading::read;
pub use segment::{Access, Segment};
pub use symbol::{Object, Position};
