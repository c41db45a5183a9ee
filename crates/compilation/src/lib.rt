// The code of a body that is accepted: the passes of straight code in a row, and the code generator behind them. What
// each pass makes may stand in the place of what it is given, so each code does what the body means, and shows what the
// body's path decides. Beside the code stands what its frame has to be where it begins. Stands on `branch_removal`, on
// the passes (`straight_words`, `optimisation`, `variable_room`) and on `codegen`.
#![tactic(auto)]

mod blank;
mod coding;
mod generated;
mod needs;
mod optimised;
mod optimising;

pub use coding::{code_of, generated_for};
pub use generated::Generated;
pub use needs::FrameNeeds;
pub use optimised::Optimisation;
