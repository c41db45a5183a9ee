// The passes of optimised code over loops and expressions: `high_products` makes an operator of what a source makes of
// halves, `constants` works out what is known and makes loops their iterations, and `iteration_groups` makes four
// iterations of a short loop one. What each makes of straight code may stand in the place of that code: the outcome is
// the same, and what is public stays public. They stand on `inline`, `branch_removal` and `straight_words`.
#![tactic(auto)]

pub mod constants;
pub mod high_products;
pub mod iteration_groups;
mod nodes;
