// Laws of programs, which hold of the definitions alone.

ghost use Rattle.std.specs.Prelude.{◌≡◌, ◌≢◌, ◌↔◌, ℕ, ◌+◌, ◌≤◌, true, false, List, ◌∷◌, ◌++◌, length};
ghost use Rattle.rv_programs.specs.Below.{Halts, here, Instr, IsInstr, Leads, MachineCode, Observation, RunsWithin};
ghost use Rattle.rv_programs.specs.Below.{Size, State, Step, StepEnding, Stop};
ghost use Rattle.rv_programs.specs.Code.{ProgramCode, StandsIn};
ghost use Rattle.rv_programs.specs.Programs.{allows_shown, CodeStep, image_program, MachineProgram, ProgramStep};
ghost use Rattle.rv_programs.specs.Runs.{ProgramLeads, ProgramHalts, ProgramRuns};

use rv_machine::Stop;

/// At an address of code one instruction stands at most, of one length, and its fields are in range.
pub fn one_instruction_stands()
    ensures one { (code : ProgramCode) (p : ℕ) (i j : Instr) (length other : Size)
        → StandsIn code p i length → StandsIn code p j other → (i ≡ j) × (length ≡ other) }
    ensures in_range { (code : ProgramCode) (p : ℕ) (i : Instr) (length : Size)
        → StandsIn code p i length → IsInstr i }
{}

/// The steps and the runs of an image, as a program, are those of the machine over its code.
pub fn images_are_programs()
    ensures code { (code : MachineCode) (s : State) (ending : StepEnding)
        → CodeStep (ProgramCode.words code) s ending ↔ Step code s ending }
    ensures step { (code : MachineCode) (s : State) (ending : StepEnding)
        → ProgramStep (image_program code) s ending ↔ Step code s ending }
    ensures leads { (code : MachineCode) (n : ℕ) (s t : State) (seen : List Observation)
        → ProgramLeads (image_program code) n s seen t ↔ Leads code n s seen t }
    ensures halts { (code : MachineCode) (n : ℕ) (s t : State) (seen : List Observation) (stop : Stop)
        → ProgramHalts (image_program code) n s seen stop t ↔ Halts code n s seen stop t }
    ensures runs { (code : MachineCode) (budget : ℕ) (s t : State) (seen : List Observation) (stop : Stop)
        → ProgramRuns (image_program code) budget s seen stop t ↔ RunsWithin code budget s seen stop t }
{}

/// What is refused is stores alone: a step that goes on is that of its code, and one that its code makes is made unless
/// it shows a store to a byte that may not be stored to.
pub fn stores_alone_are_refused()
    ensures goes_on { (program : MachineProgram) (s t : State) (o : Observation)
        → ProgramStep program s (StepEnding.goes_on o t)
        ↔ CodeStep (program.code s.pc) s (StepEnding.goes_on o t) × (allows_shown program.writable o.event ≡ true) }
    ensures refused { (program : MachineProgram) (s t : State) (o : Observation)
        → CodeStep (program.code s.pc) s (StepEnding.goes_on o t)
        → allows_shown program.writable o.event ≡ false
        → ProgramStep program s (StepEnding.stops (here s) Stop.AccessFault) }
    ensures stops { (program : MachineProgram) (s : State) (seen : List Observation) (stop : Stop)
        → CodeStep (program.code s.pc) s (StepEnding.stops seen stop)
        → ProgramStep program s (StepEnding.stops seen stop) }
{}

/// A state has one step, and the runs from one state agree.
pub fn one_program_run()
    ensures step { (program : MachineProgram) (s : State) (e f : StepEnding)
        → ProgramStep program s e → ProgramStep program s f → e ≡ f }
    ensures leads { (program : MachineProgram) (n : ℕ) (s t u : State) (a b : List Observation)
        → ProgramLeads program n s a t → ProgramLeads program n s b u → (a ≡ b) × (t ≡ u) }
    ensures halts { (program : MachineProgram) (m n : ℕ) (s t u : State) (a b : List Observation) (stop other : Stop)
        → ProgramHalts program m s a stop t
        → ProgramHalts program n s b other u
        → (m ≡ n) × (a ≡ b) × (stop ≡ other) × (t ≡ u) }
    ensures runs { (program : MachineProgram) (budget : ℕ) (s t u : State) (a b : List Observation) (stop other : Stop)
        → ProgramRuns program budget s a stop t
        → ProgramRuns program budget s b other u
        → stop ≢ Stop.RecorderRefused
        → other ≢ Stop.RecorderRefused
        → (a ≡ b) × (stop ≡ other) × (t ≡ u) }
{}

/// Every state has a step, and a run of at most so many steps that no recorder cuts short. A step that stops is no
/// recorder's refusal, and shows one observation at most.
pub fn programs_have_runs()
    ensures step { (program : MachineProgram) (s : State) → (ending : StepEnding) × ProgramStep program s ending }
    ensures stop { (program : MachineProgram) (s : State) (seen : List Observation) (stop : Stop)
        → ProgramStep program s (StepEnding.stops seen stop)
        → (stop ≢ Stop.RecorderRefused) × (length seen ≤ 1) }
    ensures run { (program : MachineProgram) (budget : ℕ) (s : State)
        → (seen : List Observation) × (stop : Stop) × (t : State)
        × ProgramRuns program budget s seen stop t
        × (stop ≢ Stop.RecorderRefused) }
{}

/// Runs follow one another.
pub fn program_runs_compose()
    ensures leads { (program : MachineProgram) (m n : ℕ) (s t u : State) (a b : List Observation)
        → ProgramLeads program m s a t → ProgramLeads program n t b u → ProgramLeads program (m + n) s (a ++ b) u }
    ensures halts { (program : MachineProgram) (m n : ℕ) (s t u : State) (a b : List Observation) (stop : Stop)
        → ProgramLeads program m s a t
        → ProgramHalts program n t b stop u
        → ProgramHalts program (m + n) s (a ++ b) stop u }
    ensures runs { (program : MachineProgram) (budget : ℕ) (s t u : State) (o : Observation) (seen : List Observation)
        (stop : Stop)
        → ProgramStep program s (StepEnding.goes_on o t)
        → ProgramRuns program budget t seen stop u
        → ProgramRuns program (budget + 1) s (o ∷ seen) stop u }
{}
