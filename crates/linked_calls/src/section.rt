// What the code of a function is made of.

use crate::Round;
use expression_code::image_fields::Slot;

/// A part of a function's code, with one purpose.
#[derive(Clone, Copy, Debug, PartialEq, Eq)]
pub enum Section {
    /// x2 goes down by what stands above the frame.
    RoomAboveFrame,
    /// What the caller has in those of s0 to s11 that the body writes is kept.
    SavedRegisters,
    /// Those of a0 to a7 that are needed behind the body are stored.
    ArgumentRegisters,
    /// The frame's base into x5.
    FrameBase,
    /// The frame becomes 0, and x2 its base.
    ClearedFrame,
    /// x2 goes down to the frame's base.
    LoweredStack,
    /// The frame's word at this offset, which has to be 0 where the body begins, becomes 0.
    BlankWord(u32),
    /// An argument, counted from 0, into its parameter's slot.
    ArgumentIn(u16, Slot),
    /// The result into a0.
    ResultOut,
    /// An array, of the argument of this number, back to the caller.
    ArrayOut(u16, Slot),
    /// The frame's end into x5.
    FrameTop,
    /// The caller's registers that were kept.
    RestoredRegisters,
    /// The caller's x2 into x5.
    CallersStack,
    /// All the room becomes 0, and x2 the caller's.
    WipedRoom,
    /// The registers that a function may change become 0.
    ClearedRegisters,
    /// Back to the caller.
    Return,
    /// From x5 on to where x6 is, up to x7, so many words a round, and back by x30.
    Copier(Round),
    /// On to the tail that functions share, which does what `WipedRoom`, `ClearedRegisters` and `Return` do.
    SharedTail,
}
