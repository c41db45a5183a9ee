ghost use Rattle.std.specs.Prelude.{◌≡◌, false};
ghost use Rattle.serde_json.specs.View.{members_view};
ghost use Rattle.serde_json.specs.Written.{members_have_float};

use serde_json::{Map, Value};
use std::alloc::Global;

/// An object of JSON: what its members are, by their names. It has no float.
#[derive(Drop)]
pub struct JsonObject {
    pub(crate) alloc: Global,
    pub(crate) members: Map<String, Value>,
    ghost exact: { members_have_float (members_view members.entries) ≡ false },
}
