// Which variables straight code gives room, and what has to be in that room where code begins. `number_words` makes
// words of numbers that are used much, and `needed_variables` gives no room to variables that nothing names: what each
// makes of straight code may stand in the place of that code. `set_first` says whether code sets each variable before
// it reads it, and `set_whole` which arrays that it is given. Stands on `branch_removal`, `straight_words` and
// `optimisation`.
#![tactic(auto)]

pub mod needed_variables;
pub mod number_words;
pub mod set_first;
pub mod set_whole;
