// One body with numbered variables: names are gone, so are scopes and calls. What the body means is what the
// source means, with the same types and labels. Stands on the syntax tree and its typing.
#![tactic(auto)]

mod calls;
mod costs;
mod flat;
mod inlining;
mod laws;
mod limits;
mod measured;
mod nodes;
mod numbering;
mod program;
mod size_limits;
mod sizes;
mod statements;
mod stretches;
mod typed;

pub use costs::{SizeCosts, size_costs};
pub use flat::{FlatStatement, FlatVariable, Stretch, Term};
pub use inlining::{inline, violations};
pub use laws::{
    flat_is_sized, flat_is_typed, flat_keeps_meaning, flat_values_fit, typed_values_fit,
};
pub use limits::{MOST_VARIABLE_BYTES, limits_are_as_stated};
pub use program::Flat;
