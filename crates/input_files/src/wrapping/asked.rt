use language::Profile;

/// What is asked of an image besides its text and its code.
#[derive(Clone, Copy, Debug, PartialEq, Eq)]
pub struct Asked {
    /// How many bytes the frame has.
    pub frame_bytes: u64,
    /// How many instructions a run takes at most.
    pub max_steps: u64,
    /// For which observer it is.
    pub profile: Profile,
}
