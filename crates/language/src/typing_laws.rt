// Typing in two ways: the table of violations, of which the first is named, and rules of inference, which
// are what a reader wants to see and what proofs use. The laws here say that they are one. They stand on
// the definitions of the language alone.

mod laws;

pub use laws::{blocks_by_rules, expressions_by_rules, programs_by_rules};
