// The type checker, of names, types and labels: accepts exactly the programs that are well typed for an observer, and
// otherwise names the first violation. It stands on the definitions of typing in `language`.
#![tactic(auto)]

mod arguments;
mod assignments;
mod calls;
mod checker;
mod clashes;
mod declarations;
mod expressions;
mod nodes;
mod procedures;
mod reasons;
mod statements;
mod values;

pub use checker::{Checked, check, check_as, violations};
