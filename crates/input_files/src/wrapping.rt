// Images of code that another compiler made, or a person: the text says what the code is to mean, so it gives the
// parameters and the result; the code, its frame and its steps are judged by what an image may have.
//
// The bytes that `wrap` answers spell exactly the fields that were asked for (`specs/wrapping/Wrapped.antt`), so what
// `hepurita` and its module `image` promise of images holds of them: they are read, run, certified. Nothing is promised
// of what the code does.

mod asked;
mod checking;
mod fault;
mod laws;
mod layout;
mod making;
mod words;

pub use asked::Asked;
pub use fault::{CodeRule, WrapFault};
pub use laws::wraps_agree;
pub use making::wrap;
