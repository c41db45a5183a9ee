// Writers and readers of bytes, as traits over what is known of the bytes that move: a sink takes
// bytes, a source hands them out, and each counts its failed calls. Code that is proved over these
// traits holds for files and for memory alike.
#![tactic(auto)]

mod faltering;
mod memory;
mod sink;
mod source;

pub use faltering::Faltering;
pub use memory::{ByteSink, ByteSource};
pub use sink::{Sink, SinkFault, put_all};
pub use source::{ReadFault, Source, SourceFault, get_up_to};
