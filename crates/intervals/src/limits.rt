// The greatest work.

ghost use Rattle.std.specs.Prelude.{◌≡◌};
ghost use Rattle.intervals.specs.Limits.{most_work};

/// The most work: how many nodes a run may evaluate at most.
pub const MOST_WORK: u64 = 4_294_967_296;

/// The constant is the number that the definitions state.
pub fn limits_are_as_stated()
    ensures work { MOST_WORK ≡ most_work }
{}
