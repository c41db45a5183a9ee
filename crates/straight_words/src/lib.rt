// Passes over the words of straight code: `element_words` makes short arrays words, and `live_words` leaves out what
// nobody reads and lets words share variables. What each makes of straight code may stand in the place of that code:
// the outcome is the same, and what is public stays public. `rewriting` makes code anew by a rule. They stand on
// `inline` and `branch_removal`.
#![tactic(auto)]

pub mod element_words;
pub mod live_words;
pub mod rewriting;
pub mod same_words;
