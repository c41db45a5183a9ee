use crate::Interval;

/// What a condition tells of a variable: its number, and where it lies.
#[derive(Clone, Copy, Debug, PartialEq, Eq)]
pub struct SaidOfVariable {
    pub variable: u32,
    pub interval: Interval,
}
