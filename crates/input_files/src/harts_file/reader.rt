// What has been read of a plan.

ghost use Rattle.std.specs.Prelude.{◌≤◌, vec_len};
ghost use Rattle.input_files.specs.Below.{most_images, most_turns};

use crate::harts_file::jobs::FileJob;

/// What has been read of a plan.
#[derive(Debug, Drop)]
pub struct PlanReader {
    pub jobs: Vec<FileJob>,
    pub schedule: Vec<u8>,
    /// Whether turns were read, after which there comes no hart.
    pub has_turns: bool,
    ghost few: { vec_len jobs ≤ most_images },
    ghost short: { vec_len schedule ≤ most_turns },
}
