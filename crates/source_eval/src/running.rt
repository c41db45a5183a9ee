// What changes while a body runs, and where its memory comes from.

use crate::variables::Variables;
use std::alloc::Global;

/// A running body.
#[derive(Drop)]
pub struct RunningBody<'a> {
    pub alloc: Global,
    /// How many more nodes may be evaluated.
    pub left: u64,
    /// What its names hold.
    pub variables: Variables<'a>,
}
