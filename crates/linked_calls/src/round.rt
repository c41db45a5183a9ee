// How much a round of a loop copies.

/// So many elements of an array, or words of it.
#[derive(Clone, Copy, Debug, PartialEq, Eq)]
pub enum Round {
    /// One.
    One,
    /// Two.
    Two,
    /// Four.
    Four,
}
