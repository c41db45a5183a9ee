// Words for numbers: straight code in which a number that no instruction holds, and that is used much, is a word. It is
// set before all else, and may lie in a register. The code may stand in the place of the code that it is made of: the
// outcome is the same, and what is public stays public. Stands on `inline` and `branch_removal`.
//
// `NumberWords::of` chooses numbers of more than 12 bits in two's complement that are used often enough; a use counts
// as one of a variable does. `NumberWords::apply` makes the code.

mod plan;
mod statements;
mod terms;
mod uses;
mod words;

pub use plan::NumberWords;
