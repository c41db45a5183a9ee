// Which of its codes a source is compiled to.

/// Whether a source is compiled to optimised code. All codes are promised the same: what the source means, within the
/// stated steps and the frame, shown alike for arguments that are equal where they are public.
#[derive(Clone, Copy, Debug, PartialEq, Eq)]
pub enum Optimisation {
    /// Plain code: every variable lives in the frame.
    Off,
    /// Optimised code, of fewer steps: the words that are used most live in registers, numbers stand in instructions,
    /// and what is known before a run is not computed in it.
    On,
    /// Optimised code of fewer words: the same, but loops stay loops.
    Small,
}
