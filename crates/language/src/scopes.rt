// The names that may be used at a point of a source, and what a call of a procedure may assign to. What checks the
// rules of typing stands on it, and what explains a refusal by them.

mod edit_distance;
mod effects;
mod nearest;
mod scope;

pub use effects::assigns_public;
pub use nearest::nearest_place;
pub use scope::Scope;
