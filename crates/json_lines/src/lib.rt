// Objects of JSON, member by member, each printed as one line.
//
// It promises the bytes of the line, for what the members were given (`specs/Lines.antt`). It stands on the kit's
// `serde_json`, which has the values and escapes the texts.
#![tactic(auto)]

mod members;
mod object;

pub use object::JsonObject;
