// Words of 8, 16 and 32 bits, and what the language's operators make of them; places in texts; and for which observer
// code is made.
//
// It promises that each operator gives what its formula on whole numbers gives (`specs/Operators.antt`),
// for all operands, and that `select` with a condition's mask takes the one word where the condition
// holds, else the other. Nothing here takes memory or fails, and the code of `select` has no branch.
// It stands on nothing but the standard library.
#![tactic(auto)]

pub mod arithmetic;
pub mod bitwise;
pub mod comparisons;
pub mod conditions;
pub mod laws;
pub mod masks;
pub mod place;
pub mod profile;
pub mod width;

pub use arithmetic::{add, convert, divide, multiply, negate, remainder, subtract, wrap};
pub use bitwise::{bit_and, bit_or, bit_xor, complement, rotate_left, shift_left, shift_right};
pub use comparisons::{at_least, at_most, equal, greater, less, unequal};
pub use conditions::{and, from_bool, not, or};
pub use masks::{mask_of, select};
pub use place::Place;
pub use profile::Profile;
pub use width::Width;
