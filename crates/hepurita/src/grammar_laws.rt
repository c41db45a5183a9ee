// Laws over the definitions of `syntax`, on which this stands: what begins a program, by the cases of the
// grammar; that each source has a list of tokens and an answer; that an offset decides line and
// column, of a token and of a node's head; that no two nodes have one head.

mod laws;

pub use laws::{
    beginnings_are_by_cases, each_source_has_an_answer, each_source_has_tokens, heads_are_distinct,
    heads_are_in_place, offsets_decide_places,
};
