// Images: a program for the machine as bytes. Bytes and fields determine each other: `write_fields` gives the one
// spelling of fields, `write` that of generated code, and `read` gives the image of each spelling, and of other bytes
// the first fault from the left. All three go by one table of fields, `Field`, and so does the format by which they are
// stated, `specs/Reading.antt`. It stands on the code of `codegen` and the fields of `image_fields` in
// `expression_code`, and writes and reads numbers by `byteorder`.
#![tactic(auto)]

mod fault;
mod field;
mod image;
mod laws;
mod limits;
mod preamble;
mod reading;
mod writing;

pub use fault::{ImageFault, ImageRule};
pub use image::Image;
pub use laws::{allowed_fields_are_spelled, no_spelling_begins_another, one_spelling};
pub use limits::{LONGEST_IMAGE, limits_are_as_stated};
pub use preamble::{MAGIC, VERSION, preamble_is_as_stated};
pub use reading::read;
pub use writing::{write, write_fields};
