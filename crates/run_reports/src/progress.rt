// Progress: runs that say, line by line, how many steps they have made.
//
// Behind each `STEPS_A_LINE` steps after which a run goes on a line is written (`Lines.antt` and `GoingOn.antt` of
// `specs/progress`): a run and a certified run are made in pieces of so many steps, and two runs that are compared in
// step go on together. What comes of a run is what comes of it without lines.

mod certifying;
mod comparing;
mod lines;
mod running;

pub use certifying::certify_in_pieces;
pub use comparing::compare_telling;
pub use lines::{ProgressLines, STEPS_A_LINE};
pub use running::run_in_pieces;
