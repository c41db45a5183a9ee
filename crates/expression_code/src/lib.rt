// The code of expressions: variables in registers of their own or at fixed offsets of the frame, and the instructions
// that compute an expression from them, with temporaries in registers and beyond these in slots. Its law: the machine
// on them has the expression's value where it is found, and what it shows is decided by what the code's observer sees
// of the path. Its modules are the fields of an image (`image_fields`), whose slots are laid out here, and a logic of
// machine code (`program_logic`). It stands on the numbered variables of inlined programs, the instructions and the
// machine.
#![tactic(auto)]

mod allocation;
pub mod emit;
mod expressions;
mod frame_bytes;
pub mod image_fields;
mod laws;
mod layout;
mod locations;
mod numbers;
mod operators;
pub mod program_logic;
mod truths;

pub use allocation::{Allocation, Mirror, REGISTER_COUNT};
pub use expressions::{expression, height, into};
pub use laws::expressions_are_computed;
pub use layout::{Layout, WORD_BYTES, offsets, slots, slotted};
pub use locations::{Location, fetch, move_register};
pub use numbers::number;
