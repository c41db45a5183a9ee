// Laws of the machine, which hold of the definitions alone.

ghost use Rattle.std.specs.Prelude.{◌≡◌, ◌≢◌, ◌↔◌, ℕ, ◌+◌, ◌%◌, ◌^◌, ◌<◌, ◌≤◌, ◌⊎◌, Bool, true, false, List, All, ◌∷◌};
ghost use Rattle.std.specs.Prelude.{[], ◌++◌, length, take, Option, Some, None, is_some, slice_get};
ghost use Rattle.rv_machine.specs.Below.{BranchTest, DivideOperation, ImmediateOperation, Instr, LoadOperation};
ghost use Rattle.rv_machine.specs.Below.{MultiplyOperation, RegisterOperation, ShiftOperation, StoreOperation};
ghost use Rattle.rv_machine.specs.Below.{UpperOperation};
ghost use Rattle.rv_machine.specs.declared.observation.Observation.{Observation};
ghost use Rattle.rv_machine.specs.declared.hart_recording.HartObservation.{HartObservation};
ghost use Rattle.rv_machine.specs.declared.stops.Stop.{Stop};
ghost use Rattle.rv_machine.specs.Apart.{AreApart, KeepsInside, IsAsAlone, ShowTheSame};
ghost use Rattle.rv_machine.specs.Bytes.{ByteMap, number_at, with_number};
ghost use Rattle.rv_machine.specs.Effects.{sign_extended, upper_value, immediate_value, shift_value, register_value};
ghost use Rattle.rv_machine.specs.Effects.{multiply_value, divide_value, holds, load_size, loaded_value, store_size};
ghost use Rattle.rv_machine.specs.Effects.{address_of, jump_target, branch_target, register_target};
ghost use Rattle.rv_machine.specs.Entries.{Entry, entries_of, IsFirstDifference};
ghost use Rattle.rv_machine.specs.Leakage.{Leads, Halts, Stepped, RunsWithin, Ran};
ghost use Rattle.rv_machine.specs.Machine.{State, MachineCode, IsAt, StepEnding, Step, here, next, observed};
ghost use Rattle.rv_machine.specs.Machine.{product_shown, with_value, with_stored, with_link, moved_to};
ghost use Rattle.rv_machine.specs.Recording.{kept};
ghost use Rattle.rv_machine.specs.Registers.{register};
ghost use Rattle.rv_machine.specs.Sizes.{byte_count};
ghost use Rattle.rv_machine.specs.System.{Member, System, state_in, FollowsSchedule, HartMakes, steps_of};

use crate::observation::Event;
use crate::stops::Stop;
use rv_code::Instr;

/// A state has one step.
pub fn one_step()
    ensures { (code : MachineCode) (s : State) (e f : StepEnding) → Step code s e → Step code s f → e ≡ f }
{}

/// Every state has a step, and a run of at most so many steps that no recorder cuts short. A step that stops is no
/// recorder's refusal, and shows one observation at most.
pub fn every_state_has_a_run()
    ensures step { (code : MachineCode) (s : State) → (ending : StepEnding) × Step code s ending }
    ensures stop { (code : MachineCode) (s : State) (seen : List Observation) (stop : Stop)
        → Step code s (StepEnding.stops seen stop) → (stop ≢ Stop.RecorderRefused) × (length seen ≤ 1) }
    ensures run { (code : MachineCode) (budget : ℕ) (s : State)
        → (seen : List Observation) × (stop : Stop) × (t : State)
        × RunsWithin code budget s seen stop t
        × (stop ≢ Stop.RecorderRefused) }
{}

/// Runs follow one another.
pub fn runs_compose()
    ensures leads { (code : MachineCode) (m n : ℕ) (s t u : State) (a b : List Observation)
        → Leads code m s a t → Leads code n t b u → Leads code (m + n) s (a ++ b) u }
    ensures halts { (code : MachineCode) (m n : ℕ) (s t u : State) (a b : List Observation) (stop : Stop)
        → Leads code m s a t → Halts code n t b stop u → Halts code (m + n) s (a ++ b) stop u }
    ensures runs { (code : MachineCode) (budget : ℕ) (s t u : State) (o : Observation) (seen : List Observation)
        (stop : Stop)
        → Step code s (StepEnding.goes_on o t)
        → RunsWithin code budget t seen stop u
        → RunsWithin code (budget + 1) s (o ∷ seen) stop u }
{}

/// The runs from one state agree.
pub fn one_run()
    ensures leads { (code : MachineCode) (n : ℕ) (s t u : State) (a b : List Observation)
        → Leads code n s a t → Leads code n s b u → (a ≡ b) × (t ≡ u) }
    ensures halts { (code : MachineCode) (m n : ℕ) (s t u : State) (a b : List Observation) (stop other : Stop)
        → Halts code m s a stop t → Halts code n s b other u → (m ≡ n) × (a ≡ b) × (stop ≡ other) × (t ≡ u) }
    ensures ran { (code : MachineCode) (keeps : Bool) (n budget : ℕ) (s t u : State) (a list list' : List Observation)
        (stop other : Stop)
        → Halts code n s a stop t
        → n ≤ budget
        → Ran code keeps budget s list other u list'
        → other ≢ Stop.RecorderRefused
        → (other ≡ stop) × (u ≡ t) × (list' ≡ kept keeps list a) }
{}

/// Two steps from one state with one list so far agree, where the recorder refused nothing; where it refused, the state
/// and the list are as before.
pub fn steps_agree()
    ensures finished { (code : MachineCode) (keeps : Bool) (s t u : State) (list one other : List Observation)
        (a b : Option Stop)
        → Stepped code keeps s list a t one
        → Stepped code keeps s list b u other
        → a ≢ Some Stop.RecorderRefused
        → b ≢ Some Stop.RecorderRefused
        → (a ≡ b) × (t ≡ u) × (one ≡ other) }
    ensures refused { (code : MachineCode) (keeps : Bool) (s t : State) (list after : List Observation)
        → Stepped code keeps s list (Some Stop.RecorderRefused) t after → (t ≡ s) × (after ≡ list) }
{}

/// Two runs from one state with one budget and one list so far agree, where the recorder refused
/// nothing; where it refused in one of them, that one's list is a beginning of the other's.
pub fn runs_agree()
    ensures finished { (code : MachineCode) (keeps : Bool) (budget : ℕ) (s t u : State)
        (list one other : List Observation)
        (stop stop' : Stop)
        → Ran code keeps budget s list stop t one
        → Ran code keeps budget s list stop' u other
        → stop ≢ Stop.RecorderRefused
        → stop' ≢ Stop.RecorderRefused
        → (stop ≡ stop') × (t ≡ u) × (one ≡ other) }
    ensures refused { (code : MachineCode) (keeps : Bool) (budget : ℕ) (s t u : State)
        (list one other : List Observation)
        (stop : Stop)
        → Ran code keeps budget s list stop t one
        → Ran code keeps budget s list Stop.RecorderRefused u other
        → stop ≢ Stop.RecorderRefused
        → (rest : List Observation) × (one ≡ other ++ rest) }
{}

/// Two lists of observations have the same entries exactly where they are one list.
pub fn entries_tell_observations_apart()
    ensures { (one other : List Observation) → (entries_of one ≡ entries_of other) ↔ (one ≡ other) }
{}

/// Two lists of entries have at most one first difference.
pub fn one_first_difference()
    ensures { (one other : List Entry) (a b : ℕ)
        → IsFirstDifference one other a → IsFirstDifference one other b → a ≡ b }
{}

/// The step of each kind of instruction, where it stands at the program counter.
pub fn instructions_step()
    ensures upper { (code : MachineCode) (s : State) (operation : UpperOperation) (rd immediate : ℕ)
        → IsAt code s.pc (Instr.Upper operation rd immediate)
        → Leads code 1 s (here s) (with_value s rd (upper_value operation s.pc immediate)) }
    ensures immediate { (code : MachineCode) (s : State) (operation : ImmediateOperation) (rd rs1 immediate : ℕ)
        → IsAt code s.pc (Instr.Immediate operation rd rs1 immediate)
        → Leads code 1 s (here s)
        (with_value s rd (immediate_value operation (register s.regs rs1) (sign_extended 12 immediate))) }
    ensures register { (code : MachineCode) (s : State) (operation : RegisterOperation) (rd rs1 rs2 : ℕ)
        → IsAt code s.pc (Instr.Register operation rd rs1 rs2)
        → Leads code 1 s (here s)
        (with_value s rd (register_value operation (register s.regs rs1) (register s.regs rs2))) }
    ensures load { (code : MachineCode) (s : State) (operation : LoadOperation) (rd rs1 offset value : ℕ)
        → let a = address_of s.regs rs1 offset in let n = load_size operation in
        IsAt code s.pc (Instr.Load operation rd rs1 offset)
        → a % byte_count n ≡ 0 → number_at s.bytes (byte_count n) a ≡ Some value
        → Leads code 1 s (observed s (Some (Event.Load a n)) ∷ []) (with_value s rd (loaded_value operation value)) }
    ensures store { (code : MachineCode) (s : State) (operation : StoreOperation) (rs2 rs1 offset : ℕ)
        → let a = address_of s.regs rs1 offset in let n = store_size operation in
        IsAt code s.pc (Instr.Store operation rs2 rs1 offset)
        → a % byte_count n ≡ 0 → is_some (number_at s.bytes (byte_count n) a) ≡ true
        → Leads code 1 s (observed s (Some (Event.Store a n)) ∷ []) (with_stored s n a (register s.regs rs2)) }
    ensures shift { (code : MachineCode) (s : State) (operation : ShiftOperation) (rd rs1 amount : ℕ)
        → IsAt code s.pc (Instr.Shift operation rd rs1 amount)
        → Leads code 1 s (here s) (with_value s rd (shift_value operation (register s.regs rs1) amount)) }
    ensures multiply { (code : MachineCode) (s : State) (operation : MultiplyOperation) (rd rs1 rs2 : ℕ)
        → let a = register s.regs rs1 in
        let b = register s.regs rs2 in
        IsAt code s.pc (Instr.Multiply operation rd rs1 rs2)
        → Leads code 1 s (observed s (product_shown code.profile a b) ∷ [])
        (with_value s rd (multiply_value operation a b)) }
    ensures divide { (code : MachineCode) (s : State) (operation : DivideOperation) (rd rs1 rs2 : ℕ)
        → let a = register s.regs rs1 in let b = register s.regs rs2 in
        IsAt code s.pc (Instr.Divide operation rd rs1 rs2)
        → Leads code 1 s (observed s (Some (Event.Div a b)) ∷ []) (with_value s rd (divide_value operation a b)) }
    ensures fence { (code : MachineCode) (s : State) (mode before after rs1 rd : ℕ)
        → IsAt code s.pc (Instr.Fence mode before after rs1 rd)
        → Leads code 1 s (here s) (moved_to s (next s)) }
    ensures jump { (code : MachineCode) (s : State) (rd offset : ℕ)
        → IsAt code s.pc (Instr.Jump rd offset)
        → jump_target s.pc offset % 4 ≡ 0
        → Leads code 1 s (here s) (with_link s rd (jump_target s.pc offset)) }
    ensures jump_register { (code : MachineCode) (s : State) (rd rs1 offset : ℕ)
        → IsAt code s.pc (Instr.JumpRegister rd rs1 offset)
        → register_target s.regs rs1 offset % 4 ≡ 0
        → Leads code 1 s (here s) (with_link s rd (register_target s.regs rs1 offset)) }
    ensures branch_taken { (code : MachineCode) (s : State) (test : BranchTest) (rs1 rs2 offset : ℕ)
        → IsAt code s.pc (Instr.Branch test rs1 rs2 offset)
        → holds test (register s.regs rs1) (register s.regs rs2) ≡ true → branch_target s.pc offset % 4 ≡ 0
        → Leads code 1 s (here s) (moved_to s (branch_target s.pc offset)) }
    ensures branch_not_taken { (code : MachineCode) (s : State) (test : BranchTest) (rs1 rs2 offset : ℕ)
        → IsAt code s.pc (Instr.Branch test rs1 rs2 offset)
        → holds test (register s.regs rs1) (register s.regs rs2) ≡ false
        → Leads code 1 s (here s) (moved_to s (next s)) }
    ensures ecall { (code : MachineCode) (s : State) → IsAt code s.pc Instr.Ecall → Halts code 1 s
        (here s) Stop.Ecall s }
    ensures ebreak { (code : MachineCode) (s : State) → IsAt code s.pc Instr.Ebreak → Halts code 1 s
        (here s) Stop.Break s }
{}

/// What a schedule shows and where it ends are one, and every schedule of numbers that harts have has
/// an end.
pub fn one_end_of_a_schedule()
    ensures one { (schedule : List ℕ) (s t u : System) (a b : List HartObservation)
        → FollowsSchedule schedule s a t → FollowsSchedule schedule s b u → (a ≡ b) × (t ≡ u) }
    ensures end { (schedule : List ℕ) (s : System) → All (λ number. number < length s.members) schedule
        → (seen : List HartObservation) × (end : System) × FollowsSchedule schedule s seen end }
{}

/// What was stored is loaded, and what lies apart from it is as it was.
pub fn numbers_in_bytes()
    ensures there { (bytes : ByteMap) (n a v : ℕ) → number_at (with_number bytes n a v) n a ≡ Some (v % 256 ^ n) }
    ensures apart { (bytes : ByteMap) (n a v m x : ℕ) → (x + m ≤ a) ⊎ (a + n ≤ x)
        → number_at (with_number bytes n a v) m x ≡ number_at bytes m x }
    ensures extent { (bytes : ByteMap) (n a v x : ℕ) → is_some (number_at bytes n a) ≡ true
        → is_some (with_number bytes n a v x) ≡ is_some (bytes x) }
{}

/// Harts over one memory, each with bytes of its own that no other hart reaches. After any schedule each is what it is
/// alone after as many steps as the schedule names it. Two such systems whose harts alone show the same show one list.
pub fn harts_are_as_alone()
    ensures alone { (own : ℕ → ByteMap) (schedule : List ℕ) (s end : System) (list : List HartObservation) (k : ℕ)
        (m : Member)
        → AreApart own s
        → FollowsSchedule schedule s list end
        → slice_get s.members k ≡ Some m
        → IsAsAlone k (steps_of k schedule) (own k) m list end }
    ensures shown { (own own' : ℕ → ByteMap) (schedule : List ℕ) (s s' end end' : System)
        (list list' : List HartObservation)
        → AreApart own s
        → AreApart own' s'
        → ((k : ℕ) (m m' : Member) → slice_get s.members k ≡ Some m → slice_get s'.members k ≡ Some m'
        → ShowTheSame (own k) m (own' k) m')
        → FollowsSchedule schedule s list end
        → FollowsSchedule schedule s' list' end'
        → list ≡ list' }
{}

/// A hart alone whose run stops: it reaches for no other bytes unless that is how it stops, however many steps it makes
/// it has shown a beginning of the run's list, an observation a step, and once it has made the run's steps it is where
/// the run stopped.
pub fn harts_halt()
    ensures inside { (m : Member) (own : ByteMap) (n : ℕ) (seen : List Observation) (stop : Stop) (t : State)
        → m.stop ≡ None → Halts m.code n (state_in own m) seen stop t → stop ≢ Stop.AccessFault → KeepsInside own m }
    ensures shown { (m after : Member) (own bytes : ByteMap) (n k : ℕ) (seen list : List Observation) (stop : Stop)
        (t : State)
        → m.stop ≡ None
        → Halts m.code n (state_in own m) seen stop t
        → HartMakes k own m list bytes after
        → list ≡ take k seen }
    ensures stopped { (m after : Member) (own bytes : ByteMap) (n k : ℕ) (seen list : List Observation) (stop : Stop)
        (t : State)
        → m.stop ≡ None
        → Halts m.code n (state_in own m) seen stop t
        → HartMakes k own m list bytes after
        → n ≤ k
        → (after.stop ≡ Some stop) × (bytes ≡ t.bytes) × (list ≡ seen) }
{}
