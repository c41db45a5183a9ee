// The source's own meaning, run: straight from the tree, with real branches, loops and calls. It promises the outcome
// or the fault that the definitions of meaning in `language` give, and says exactly when a budget of nodes and open
// bodies is passed. It stands on the words of `word`, on `language` for trees, definitions and the judgement of
// arguments, and on `indexmap`.
#![tactic(auto)]

mod calls;
mod evaluation;
mod expressions;
mod fault;
mod laws;
mod operators;
mod running;
mod spending;
mod statements;
mod values;
mod variables;

pub use evaluation::eval;
pub use fault::EvalFault;
pub use laws::{meaning_can_be_had, meaning_is_worked_out, runs_open_what_is_counted};
