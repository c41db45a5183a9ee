// Makes the words of a function for C: the code of an image, between code that takes arguments as C passes them for
// RV32 and code that hands results back. Which words these are, and what a call of them does, is said in
// `linked_calls`.

mod arrays;
mod blank;
mod copier;
mod copying;
mod entering;
mod kept;
mod leaving;
mod pieces;
mod registers;
mod room;
mod sections;
mod words;
mod zeroing;

pub use pieces::wrapped;
pub use room::{Around, above_frame, around_body, room_of};
pub use sections::{
    enter_sections, last_sections, leave_sections, next_code, section_code, sections_length,
};
pub use words::{body, from_body, function_words};
pub use zeroing::wiped_room;
