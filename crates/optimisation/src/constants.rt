// Constants: straight code in which a word that is known is a number, a copy is read as its source, an operator between
// numbers is what it comes to, and a branch that a number decides is its one arm. A loop whose bounds are numbers may
// become its iterations. It may stand in the place of the code that it is made of: the outcome is the same, and what is
// public stays public. Stands on `inline` and `branch_removal`.
//
// What is known is carried from statement to statement: of numbers all, of copies the last 16. After an arm or a loop
// nothing is known of what it assigns, and in a loop that stays nothing of numbers of 2,048 or more. `simplify` also
// makes products, quotients and remainders by powers of two shifts and masks; a division by 0 stays. `unroll` unrolls
// loops with constant bounds, innermost first, where what that saves is worth what it adds, and where an iteration is
// short or there are at most three, as long as all unrolled iterations together have at most 32 times the nodes of the
// source (`specs/constants/private/Choice.antt`); the proof holds for any choice.

mod choice;
pub(crate) mod copy_propagation;
mod costs;
pub(crate) mod fields;
mod known;
pub(crate) mod operators;
mod powers;
mod simplification;
mod statements;
pub(crate) mod terms;

pub use operators::folded;
pub use simplification::{simplify, unroll};
pub use terms::CounterRange;
