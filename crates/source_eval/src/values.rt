use language::Kind;

/// A word with its kind, a bool being 0 or 1.
#[derive(Clone, Copy, Debug)]
pub struct Word {
    pub kind: Kind,
    pub value: u32,
}

/// What a name holds.
#[derive(Debug, Drop)]
pub enum Value {
    Single(Word),
    Array(Kind, Vec<u32>),
}
