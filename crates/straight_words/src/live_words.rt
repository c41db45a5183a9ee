// Live words: straight code in which a word that nobody reads is not set, and words that are never live at once share a
// variable. It may stand in the place of the code that it is made of: the outcome is the same, and what is public stays
// public. Stands on `inline` and `branch_removal`.
//
// A register belongs to a variable for the whole run, so words that share a variable share a register; those that are
// used most are placed first.

mod choice;
mod gathering;
mod live;
mod sharing;
mod statements;
mod terms;

pub use sharing::share_words;
