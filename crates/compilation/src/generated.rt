// Code, with what its frame has to be where it begins.

use crate::needs::FrameNeeds;
use codegen::Code;

/// The code of straight code, and what it needs of its frame where it begins.
#[derive(Drop)]
pub struct Generated {
    pub code: Code,
    pub needs: FrameNeeds,
}
