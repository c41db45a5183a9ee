// Listings: what an observer sees of a run, a line for each entry, and the words of an image with their
// text. What is promised of a run's listing is promised of the bytes that go out to a sink, also where
// the sink is slow or fails. The lines of a run are those of any program's; the listing of an image's
// run has the line of its stop behind them.
#![tactic(auto)]

mod digits;
mod fault;
mod laws;
mod leaking;
mod lines;
mod steps;
mod words;

pub use digits::eight_digits;
pub use fault::LeakFault;
pub use laws::{leaks_agree, listings_show_what_is_public};
pub use leaking::leak;
pub use lines::{Lines, lines_of, stop_line};
pub use steps::write_steps;
pub use words::{line_at, list, word_line};
