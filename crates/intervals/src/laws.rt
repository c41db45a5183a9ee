// The laws, which hold of the definitions alone.

ghost use Rattle.std.specs.Prelude.{◌≡◌, ℕ, ◌+◌, ◌≤◌, List, length};
ghost use Rattle.intervals.specs.Below.{AreWithin, Arg, ending_of, FlatProgram, gives, IsTypedFlat, outcome_of};
ghost use Rattle.intervals.specs.Below.{path_of, value_nodes};
ghost use Rattle.intervals.specs.Evaluated.{evaluated_by};
ghost use Rattle.intervals.specs.Loose.{IsLooseRun, IsSafe};
ghost use Rattle.intervals.specs.Ranges.{range_violations, iterations_of};
ghost use Rattle.intervals.specs.Work.{body_work};

/// What a program means is one of its loose runs.
pub fn strict_runs_are_loose()
    ensures { (p : FlatProgram) (args : List Arg) → IsLooseRun p args (path_of p args) }
{}

/// A safe program meets no fault on arguments within its parameter types.
pub fn safe_runs_meet_no_fault()
    ensures { (p : FlatProgram) (iterations : List ℕ) (args : List Arg)
        → IsSafe p iterations
        → AreWithin p.parameters args
        → ending_of p args ≡ gives (outcome_of p args) }
{}

/// A well-typed program whose ranges are kept is safe: no run on arguments within its parameter types, whatever the
/// secrets in it are, meets a fault or makes more iterations in a loop than are counted for it.
pub fn accepted_is_safe()
    ensures { (p : FlatProgram) → IsTypedFlat p → length (range_violations p) ≡ 0 → IsSafe p (iterations_of p) }
{}

/// A run of a safe program on arguments within its parameter types evaluates at most as many nodes as its work.
pub fn safe_runs_are_within_work()
    ensures { (p : FlatProgram) (iterations : List ℕ) (args : List Arg)
        → IsSafe p iterations
        → AreWithin p.parameters args
        → evaluated_by p args ≤ body_work iterations p.body + value_nodes p.value }
{}
