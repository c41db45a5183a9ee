// The linked call: the code of a function for C, and what is promised of it when code calls it by the standard calling
// convention of RV32: what its pieces do, and what a whole call does. `functions::function_code` makes that code.
#![tactic(auto)]

mod laws;
mod pace;
mod round;
mod section;

pub use laws::{
    array_is_handed_back, array_is_taken, calls_are_linked, code_is_placed, copier_copies,
    copies_are_short, frame_is_zeroed, registers_are_cleared, result_is_handed_back, room_is_wiped,
    sections_are_the_function, word_is_taken,
};
pub use pace::Pace;
pub use round::Round;
pub use section::Section;
