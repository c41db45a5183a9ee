// What the places of a run's entries are to each other.

ghost use Rattle.std.specs.Prelude.{◌≡◌, ◌≢◌, ℕ, ◌+◌, ◌-◌, ◌<◌, ◌≤◌, List, None, length};
ghost use Rattle.run_reports.specs.Below.{MachineCode, entries_of, IsFirstDifference, Leads, Observation, State, Stop};
ghost use Rattle.run_reports.specs.Below.{word_at};
ghost use Rattle.run_reports.specs.run_places.Places.{Ends, IsLastBefore, ShowsFewer};
ghost use Rattle.run_reports.specs.run_places.Shown.{ShowsAt};
ghost use Rattle.run_reports.specs.declared.run_places.shown.Shown.{Shown};

/// What a run shows at a place behind the entries of steps that it made is what the state that they lead to shows.
pub fn places_behind_steps()
    ensures { (code : MachineCode) (budget : ℕ) (s t : State) (seen : List Observation) (place : ℕ) (shown : Shown)
        → Leads code (length seen) s seen t → length seen ≤ budget
        → ShowsAt code (budget - length seen) t place shown
        → ShowsAt code budget s (length (entries_of seen) + place) shown }
{}

/// The last steps before the first difference of two runs are one step: both runs have shown one list before it, and
/// come to one program counter.
pub fn one_step_before_a_difference()
    ensures { (code : MachineCode) (budget : ℕ) (s s' t t' : State) (whole whole' seen seen' : List Observation)
        (stop stop' : Stop) (place : ℕ)
        → Ends code budget s whole stop
        → Ends code budget s' whole' stop'
        → IsFirstDifference (entries_of whole) (entries_of whole') place
        → IsLastBefore code budget s place seen t
        → IsLastBefore code budget s' place seen' t'
        → (seen ≡ seen') × (t.pc ≡ t'.pc) }
{}

/// Two runs that begin at one program counter and differ reach their first difference: an entry comes before it, and
/// neither run shows fewer entries than come before it.
pub fn a_difference_is_reached()
    ensures { (code : MachineCode) (budget : ℕ) (s s' : State) (whole whole' : List Observation) (stop stop' : Stop)
        (place : ℕ)
        → Ends code budget s whole stop
        → Ends code budget s' whole' stop'
        → s.pc ≡ s'.pc
        → IsFirstDifference (entries_of whole) (entries_of whole') place
        → (0 < place) × (ShowsFewer code budget s place → ⊥) × (ShowsFewer code budget s' place → ⊥) }
{}

/// The last step before a place begins where a word stands.
pub fn a_word_before_a_place()
    ensures { (code : MachineCode) (budget : ℕ) (s t : State) (place : ℕ) (seen : List Observation)
        → IsLastBefore code budget s place seen t → word_at code t.pc ≢ None }
{}
