// The fields of an image: for which observer it is, a program's code words, where its words lie in the frame, and how
// long it may run; and which values these may have. The code generator makes them, and bytes spell them.
// It stands on the observers of `word` and the parameters' shapes of `language`.

mod fields;
mod limits;
mod slot;

pub use fields::ImageFields;
pub use limits::{MOST_FRAME_BYTES, MOST_PARAMETERS, MOST_STEPS, MOST_WORDS, limits_are_as_stated};
pub use slot::{ResultSlot, Slot};
