// What the members of an object are, and its line.

ghost use Rattle.std.specs.Prelude.{◌≡◌, false, map, IfOk, OnOk};
ghost use Rattle.serde_json.specs.Data.{no_members, number, put, string, unsigned};
ghost use Rattle.serde_json.specs.View.{view};
ghost use Rattle.serde_json.specs.Written.{has_float};
ghost use Rattle.json_lines.specs.Lines.{line_of, lines_data, texts_data};
ghost use Rattle.json_lines.specs.Objects.{members_in};

use crate::object::JsonObject;
use serde_json::{Map, Value, put};
use std::alloc::{AllocError, Global};

impl JsonObject {
    /// An object without members.
    pub fn new(alloc: Global) -> JsonObject
        ensures { members_in result ≡ no_members }
    {
        let members = Map::new(alloc);
        JsonObject { alloc, members }
    }

    /// The member of this name is a text from here on.
    pub fn set_text(&mut self, name: &str, text: &str) -> Result<(), AllocError>
        ensures { OnOk result (members_in self.new ≡ put name.now (string text.now) (members_in self.old)) }
    {
        let value = Value::try_from_str(self.alloc, text)?;
        self.set(name, value)
    }

    /// The same, and it is a number.
    pub fn set_number(&mut self, name: &str, count: u64) -> Result<(), AllocError>
        ensures { OnOk result (members_in self.new ≡ put name.now (number (unsigned count)) (members_in self.old)) }
    {
        let value = Value::from(count);
        self.set(name, value)
    }

    /// The same, and it is texts in their order.
    fn set_texts(&mut self, name: &str, texts: &[&str]) -> Result<(), AllocError>
        ensures { OnOk result (members_in self.new
            ≡ put name.now (texts_data (map (λ text. text.now) texts.now)) (members_in self.old)) }
    {
        let alloc = self.alloc;
        let mut items = Vec::new(alloc);
        for text in texts {
            items.push(Value::try_from_str(alloc, text)?)?;
        }
        self.set(name, Value::from(items))
    }

    /// The same, and it is the lines of a text; what is no UTF-8 is replaced.
    pub fn set_lines(&mut self, name: &str, text: &[u8]) -> Result<(), AllocError>
        ensures { OnOk result (members_in self.new ≡ put name.now (lines_data text.now) (members_in self.old)) }
    {
        let alloc = self.alloc;
        let text = String::from_utf8_lossy(alloc, text)?;
        let lines: Vec<&str> = text.lines().collect(alloc)?;
        self.set_texts(name, lines.as_slice())
    }

    /// The same, and it is this.
    fn set(&mut self, name: &str, value: Value) -> Result<(), AllocError>
        requires { has_float (view value) ≡ false }
        ensures { OnOk result (members_in self.new ≡ put name.now (view value) (members_in self.old)) }
    {
        put(&mut self.members, self.alloc, name, value)
    }

    /// The object as a line.
    pub fn into_line(self) -> Result<Vec<u8>, AllocError>
        ensures { IfOk result (λ line. line.items ≡ line_of (members_in self)) }
    {
        let alloc = self.alloc;
        let mut line = Value::Object(self.members).to_vec(alloc)?;
        line.push(b'\n')?;
        Ok(line)
    }
}
