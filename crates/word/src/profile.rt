// For which observer code is made.

/// What an observer is taken to see of instructions, beside program counters, the addresses of loads and stores, and
/// the operands of divisions.
#[derive(Clone, Copy, Debug, PartialEq, Eq)]
pub enum Profile {
    /// Nothing else: a multiplication shows nothing of its operands.
    P1,
    /// The operands of multiplications too.
    P2,
}
