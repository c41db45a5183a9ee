ghost use Rattle.std.specs.Prelude.{◌≡◌, ◌+◌};
ghost use Rattle.expression_code.specs.image_fields.Fields.{slot_end, result_end};

use language::{Kind, Label, Param};

/// Where a parameter lies in the frame.
#[derive(Clone, Copy, Debug, PartialEq, Eq)]
pub struct Slot {
    pub param: Param,
    /// Its distance from the frame's first byte, in bytes.
    pub offset: u32,
}

/// Where the result lies in the frame.
#[derive(Clone, Copy, Debug, PartialEq, Eq)]
pub struct ResultSlot {
    pub kind: Kind,
    pub label: Label,
    /// Its distance from the frame's first byte, in bytes.
    pub offset: u32,
}

impl Slot {
    /// The offset of the first byte after it.
    pub fn end(self) -> u64
        ensures { result ≡ slot_end self }
    {
        u64::from(self.offset) + 4 * u64::from(self.param.words())
    }
}

impl ResultSlot {
    /// The offset of the first byte after it.
    pub fn end(self) -> u64
        ensures { result ≡ result_end self }
    {
        u64::from(self.offset) + 4
    }
}
