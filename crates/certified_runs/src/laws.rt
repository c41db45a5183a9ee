// The laws of what is known, which hold of the definitions alone.

ghost use Rattle.std.specs.Prelude.{◌≡◌, ◌≢◌, ℕ, ◌+◌, ◌<◌, ◌∷◌, ◌++◌, List};
ghost use Rattle.certified_runs.specs.Below.{entries_of, Entry, MachineProgram, Observation, ProgramHalts};
ghost use Rattle.certified_runs.specs.Below.{ProgramLeads, ProgramRuns, ProgramStep, State, StepEnding, Stop};
ghost use Rattle.certified_runs.specs.Amounts.{ShiftsBy};
ghost use Rattle.certified_runs.specs.Certified.{CertifiedRun, KnownEnding, KnownLeads, KnownStep, RunEnding};
ghost use Rattle.certified_runs.specs.Known.{KnownState, Covers};

use crate::shifts::Shifts;
use rv_machine::Stop;

/// Whatever is known of a state, the state itself is covered.
pub fn what_is_known_covers()
    ensures { (k : KnownState) → Covers k k.state }
{}

/// A step of what is known is a step of each covered state: it shows the same and covers where that leads, or it stops
/// alike.
pub fn steps_keep_covering()
    ensures leads_on { (program : MachineProgram) (k next : KnownState) (s : State) (o : Observation)
        → KnownStep program k (KnownEnding.leads_on o next) → Covers k s
        → (t : State) × ProgramStep program s (StepEnding.goes_on o t) × Covers next t }
    ensures ends { (program : MachineProgram) (k : KnownState) (s : State) (seen : List Observation) (stop : Stop)
        → KnownStep program k (KnownEnding.ends seen stop)
        → Covers k s
        → ProgramStep program s (StepEnding.stops seen stop) }
{}

/// Where a certified run is the same for all that is unknown, every run from a covered state with its budget, cut short
/// by no recorder, shows its list and stops alike, and there is such a run.
pub fn certified_runs_cover()
    ensures some { (program : MachineProgram) (budget : ℕ) (k : KnownState) (s : State) (seen : List Observation)
        (stop : Stop)
        → CertifiedRun program budget k seen (RunEnding.same stop) → Covers k s
        → (t : State) × ProgramRuns program budget s seen stop t }
    ensures every { (program : MachineProgram) (budget : ℕ) (k : KnownState) (s t : State)
        (seen shown : List Observation)
        (stop other : Stop)
        → CertifiedRun program budget k seen (RunEnding.same stop)
        → Covers k s
        → ProgramRuns program budget s shown other t
        → other ≢ Stop.RecorderRefused
        → (shown ≡ seen) × (other ≡ stop) }
{}

/// A certified run has an end, and only one.
pub fn certified_runs_have_one_end()
    ensures some { (program : MachineProgram) (budget : ℕ) (k : KnownState)
        → (seen : List Observation) × (ending : RunEnding) × CertifiedRun program budget k seen ending }
    ensures one { (program : MachineProgram) (budget : ℕ) (k : KnownState) (seen shown : List Observation)
        (ending other : RunEnding)
        → CertifiedRun program budget k seen ending → CertifiedRun program budget k shown other
        → (seen ≡ shown) × (ending ≡ other) }
{}

/// Where steps of what is known lead to one that stops, the run of each covered state stops by it, at the same program
/// counter.
pub fn certified_runs_stop_at_one_place()
    ensures { (program : MachineProgram) (n : ℕ) (k now : KnownState) (s : State) (seen last : List Observation)
        (stop : Stop)
        → KnownLeads program n k seen now
        → KnownStep program now (KnownEnding.ends last stop)
        → Covers k s
        → (t : State) × ProgramHalts program (n + 1) s (seen ++ last) stop t × (t.pc ≡ now.state.pc) }
{}

/// How a certified run ends depends on what is known alone: what the state holds elsewhere makes no difference.
pub fn certified_runs_depend_on_what_is_known()
    ensures { (program : MachineProgram) (budget : ℕ) (k other : KnownState) (seen : List Observation)
        (ending : RunEnding)
        → Covers k other.state → other.registers ≡ k.registers → other.bytes ≡ k.bytes → other.shifts ≡ k.shifts
        → CertifiedRun program budget k seen ending → CertifiedRun program budget other seen ending }
{}

/// Where a certified run may differ, each covered state makes steps that show its list, fewer than the budget, up to
/// the program counter of the step that may differ.
pub fn certified_runs_cut_short_agree()
    ensures { (program : MachineProgram) (budget : ℕ) (k : KnownState) (s : State) (seen : List Observation) (pc : ℕ)
        → CertifiedRun program budget k seen (RunEnding.may_differ pc) → Covers k s
        → (n : ℕ) × (t : State) × (n < budget) × ProgramLeads program n s seen t × (t.pc ≡ pc) }
{}

/// And every run from a covered state with its budget, cut short by no recorder, shows first the entries of its list
/// and then that program counter, so that all these entries are common.
pub fn runs_that_may_differ_begin_alike()
    ensures { (program : MachineProgram) (budget : ℕ) (k : KnownState) (s t : State) (seen shown : List Observation)
        (stop : Stop)
        (pc : ℕ)
        → CertifiedRun program budget k seen (RunEnding.may_differ pc)
        → Covers k s
        → ProgramRuns program budget s shown stop t
        → stop ≢ Stop.RecorderRefused
        → (rest : List Entry) × (entries_of shown ≡ entries_of seen ++ Entry.program_counter pc ∷ rest) }
{}

/// Every run shifts registers by the amounts of one list, however it stops.
pub fn runs_shift_by_one_list()
    ensures some { (program : MachineProgram) (budget : ℕ) (s : State)
        → (amounts : List ℕ) × ShiftsBy program budget s amounts }
    ensures one { (program : MachineProgram) (budget : ℕ) (s : State) (amounts others : List ℕ)
        → ShiftsBy program budget s amounts → ShiftsBy program budget s others → amounts ≡ others }
{}

/// Where a certified run with shifts seen is the same for all that is unknown, the runs from any two covered states
/// with its budget shift by the same amounts. They also show the same program counters, so the same shifts go by them.
pub fn certified_shifts_agree()
    ensures { (program : MachineProgram) (budget : ℕ) (k : KnownState) (s t : State) (seen : List Observation)
        (stop : Stop)
        (amounts others : List ℕ)
        → CertifiedRun program budget k seen (RunEnding.same stop)
        → k.shifts ≡ Shifts.Seen
        → Covers k s
        → Covers k t
        → ShiftsBy program budget s amounts
        → ShiftsBy program budget t others
        → amounts ≡ others }
{}
