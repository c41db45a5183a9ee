// Files of harts: which images run side by side, on which arguments, and whose turn it is when. A text gives one plan,
// or has a first faulty line and the first rule that the line breaks, and `read` answers that of a source, of which it
// keeps one line at a time.

mod fault;
mod jobs;
mod laws;
mod lines;
mod numerals;
mod pieces;
mod plan;
mod reader;
mod taken_lines;
mod taking;

pub use fault::{PlanFault, PlanFileFault};
pub use jobs::FileJob;
pub use laws::each_text_gives_one_answer;
pub use plan::{HartsPlan, read};
