// Vectors of a source: a file names, line by line, arguments and the outcome that they have to give. A vector passes
// exactly where the source means that outcome on them, and the image is certified to show the same for all secrets.
//
// Each vector is run once and certified once. What the image gives is what the source means, and vectors with the same
// public arguments show the same where the certificate says so: both are proved below, so neither is tried here. It
// stands on `hepurita` and `certificates`.

mod fault;
mod given;
mod laws;
mod lines;
mod reading;
mod running;
mod texts;
mod trying;
mod wanted;

pub use fault::VectorsFault;
pub use laws::verdicts_are_exact;
pub use lines::Vector;
pub use reading::{LONGEST_VECTORS, read};
pub use trying::{Report, try_vectors};
