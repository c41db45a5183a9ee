// The code generator: the instructions that run straight code in the places of its frame, and the fields of their
// image. The machine, running what is generated, follows the code. It stands on straight code, the code of expressions
// with the fields of an image and the logic of machine code, the instructions and the machine.
#![tactic(auto)]

mod arrays;
mod assigned;
mod code;
mod comparing;
mod control_uses;
mod fresh;
mod generator;
mod heights;
mod homes;
mod jumping;
mod loops;
mod masking;
mod mirror_uses;
mod reading;
mod statements;
mod stored_values;
mod unemitted;
mod word_puts;

pub use code::Code;
pub use generator::{generate, generate_optimised, optimised_variables};
