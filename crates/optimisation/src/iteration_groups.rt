// Groups of iterations: straight code in which four iterations of a loop are one. A loop between two numbers, whose
// body is short and has no loop, becomes one over groups: in each a word, the base, is set to where the counter would
// begin, and in the four copies of the body the counter is the base, or up to three more. What is left over is done
// behind it. It may stand in the place of the code that it is made of: the outcome is the same, and what is public
// stays public. Stands on `inline` and `branch_removal`.

pub(crate) mod choice;
pub(crate) mod losses;
mod plan;
mod statements;
mod terms;

pub use plan::IterationGroups;
