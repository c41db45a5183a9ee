// What each code of an error and each name of a stop means: the rule in a sentence or two, its usual causes and what to
// do, and for a rule of the language a text that violates it and the same text corrected.
//
// It promises that there is an explanation exactly for the codes that are listed (`specs/Listed.antt`), that it is that
// of the code asked for, and that a rule's has the rule's name. Nothing of this takes memory or fails.
// Its modules explain one refusal of a source: what it says and what there is at its place (`refusal_details`), and all
// that is printed (`explained_refusals`). They stand on the parser,
// and on what there is at a place of a source: its line (`source_excerpts`), calls of the procedure
// (`call_places`), and the tokens that may stand there (`expected_tokens`). Each promises exactly what it finds.
#![tactic(auto)]

pub mod call_places;
pub mod expected_tokens;
pub mod explained_refusals;
mod finding;
mod habits;
pub mod lookup;
pub mod refusal_details;
pub mod row;
mod rows;
pub mod source_excerpts;

pub use lookup::{codes, explanation};
pub use row::Explanation;
