// Which way the code around a body goes: in few steps, or in few words.

/// What the code around a body is made for. What a call does is the same for each, but for how many steps it makes.
#[derive(Clone, Copy, Debug, PartialEq, Eq)]
pub enum Pace {
    /// Few steps: arrays go by words, which one copier copies for all of them.
    Fast,
    /// Few words: each array has a loop of its own, which copies one element a round, and functions share what they do
    /// last.
    Small,
}
