// Origins: where what is unknown of a register comes from, at the step of a certified run that may differ.
//
// A certified run is made again, and beside what is known of it goes where what is unknown of each register comes from:
// the load that gave it, which is passed on from register to register (`Origins.antt` and `Traced.antt` of
// `specs/origins`). It stands on `certified_runs`, and takes no memory.

mod reading;
mod registers;
mod steps;
mod tracing;

pub use reading::{Reads, reads_of};
pub use registers::{Origin, Origins};
pub use tracing::{Undecided, trace};
