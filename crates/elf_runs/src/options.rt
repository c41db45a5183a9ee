// How a function is to be run.

use certified_runs::Shifts;
use word::Profile;

/// Who observes a run, whether that observer sees the amounts of shifts by registers, and how many steps it has at
/// most.
#[derive(Clone, Copy)]
pub struct RunOptions {
    pub profile: Profile,
    pub shifts: Shifts,
    pub steps: u64,
}
