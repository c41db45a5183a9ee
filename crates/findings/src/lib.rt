// What a walk over a program finds: the violations of rules, of which the first alone is told, or all of them in their
// order. It stands on the violations of `language`.
#![tactic(auto)]

mod findings;
mod laws;
mod order;

pub use findings::Findings;
pub use laws::first_is_named;
pub use order::in_order;
