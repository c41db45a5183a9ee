/// From which number to which a value lies, both included.
#[derive(Clone, Copy, Debug, PartialEq, Eq)]
pub struct Interval {
    pub low: u32,
    pub high: u32,
}
