// Words for elements: straight code in which a short array that is indexed by numbers alone is so many words, which may
// lie in registers. It may stand in the place of the code that it is made of: the outcome is the same, and what is
// public stays public. Stands on `inline` and `branch_removal`.
//
// `ElementWords::of` chooses arrays that are no parameters, have at most 256 elements and are used only at constant
// indices within the array, in order, as long as there is room for their words, 512 at most; `ElementWords::apply`
// makes the code.

mod narrowing;
mod parts;
mod plan;
pub mod statements;
mod terms;

pub use parts::SplitArrays;
pub use plan::{ElementWords, MOST_VARIABLE_WORDS};
