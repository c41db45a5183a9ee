// What a user asks a run to begin with.

/// An argument of the function.
#[derive(Drop)]
pub enum Argument {
    /// This number.
    Number(u32),
    /// Any word.
    Unknown,
    /// The address of the symbol of this name, and so many bytes behind it.
    Address { symbol: Vec<u8>, offset: u32 },
}

/// The name of an object of which no bit is known.
#[derive(Drop)]
pub struct Secret {
    pub object: Vec<u8>,
}

/// Bytes that the object of a name begins with.
#[derive(Drop)]
pub struct Setting {
    pub object: Vec<u8>,
    pub bytes: Vec<u8>,
}

/// A function, its arguments, what is secret, what is set before the run, in this order, and how many bytes the stack
/// has.
#[derive(Drop)]
pub struct Asked {
    pub function: Vec<u8>,
    pub arguments: Vec<Argument>,
    pub secrets: Vec<Secret>,
    pub settings: Vec<Setting>,
    pub stack: u32,
}
