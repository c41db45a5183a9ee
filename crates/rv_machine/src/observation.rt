// What an observer sees of one step of the machine.

use crate::memory::Size;

/// What an instruction shows besides its address.
#[derive(Clone, Copy, Debug, PartialEq, Eq)]
pub enum Event {
    /// It loaded from this address so many bytes.
    Load(u32, Size),
    /// It stored to this address so many bytes.
    Store(u32, Size),
    /// It divided the first number by the second.
    Div(u32, u32),
    /// It multiplied these numbers. Code of profile 1 shows no product.
    Mul(u32, u32),
}

/// What one step shows: the program counter, and the event where the instruction has one.
#[derive(Clone, Copy, Debug, Default, PartialEq, Eq)]
pub struct Observation {
    pub pc: u32,
    pub event: Option<Event>,
}
