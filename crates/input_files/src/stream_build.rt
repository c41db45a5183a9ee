// A text from any source, compiled to its image on any sink. What `build` promises of a text and its
// image is promised here of the bytes that come in and go out, also where streams are slow or fail.

mod building;
mod fault;
mod laws;
mod reading;

pub use building::{build_stream, build_stream_as, build_stream_keeping, build_stream_with};
pub use fault::{BuildFault, Unbuilt};
pub use laws::streams_agree;
pub use reading::{read_text, text_of};
