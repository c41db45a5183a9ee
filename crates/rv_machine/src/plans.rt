// What a step shows and changes, before the recorder has its say.

ghost use Rattle.std.specs.Prelude.{◌≡◌, ◌≢◌, ℕ, ◌%◌, Some, None};
ghost use Rattle.rv_machine.specs.Bytes.{ByteMap};
ghost use Rattle.rv_machine.specs.Decoded.{spelled, IsDecoded};
ghost use Rattle.rv_machine.specs.Effects.{effect_of, load_size, store_size};
ghost use Rattle.rv_machine.specs.Harts.{state_of};
ghost use Rattle.rv_machine.specs.Machine.{State, Step, word_at, product_shown, ending_by};
ghost use Rattle.rv_machine.specs.Plans.{ends_as, stop_of, IsPossible};
ghost use Rattle.rv_machine.specs.Regions.{code_of};
ghost use Rattle.rv_machine.specs.Sizes.{byte_count};
ghost use Rattle.rv_machine.specs.Below.{Profile};

use crate::code::{CodeRegion, CodeWord};
use crate::effects::{Effect, effect_of, load_size, store_size};
use crate::hart::Hart;
use crate::memory::{Memory, Size};
use crate::observation::Event;
use crate::stops::Stop;
use rv_code::{Instr, LoadOperation, Reg, StoreOperation};
use word::Profile;

/// How long an instruction is, of what the addresses of instructions are multiples in the code that it stands in, and
/// who observes it run.
#[derive(Clone, Copy)]
pub struct InstructionForm {
    pub length: Size,
    pub alignment: Size,
    pub profile: Profile,
}

impl InstructionForm {
    /// That of an instruction in code of words, which is one of them.
    #[inline(always)]
    pub fn word(profile: Profile) -> InstructionForm
        ensures { result ≡ record { length = Size.Word; alignment = Size.Word; profile = profile } }
    {
        InstructionForm {
            length: Size::Word,
            alignment: Size::Word,
            profile,
        }
    }
}

/// What a step changes, where the recorder takes what it shows.
#[derive(Clone, Copy)]
pub enum Change {
    /// The register gets this value, and the hart goes on to the next instruction.
    Writes(Reg, u32),
    /// The register gets the next address, and the program counter this target.
    Links(Reg, u32),
    /// The program counter gets this target.
    Goes(u32),
    /// So many bytes of the last number go to this address, and the hart goes on to the next
    /// instruction.
    Stores(Size, u32, u32),
    /// Nothing, and the run stops so.
    Stops(Stop),
}

/// What a step shows besides its program counter, and what it changes.
#[derive(Clone, Copy)]
pub struct Plan {
    pub event: Option<Event>,
    pub change: Change,
}

/// The plan of a step that shows its program counter alone.
#[inline(always)]
fn unseen(change: Change) -> Plan
    ensures { result ≡ record { event = None; change = change } }
{
    Plan {
        event: None,
        change,
    }
}

/// The plan of a load. For each size there is code of its own.
#[inline(always)]
fn load_plan<M: Memory>(memory: &M, operation: LoadOperation, rd: Reg, a: u32) -> Plan
    ensures ends { (length alignment : Size) (profile : Profile) (pc : ℕ) (regs : ℕ → ℕ)
        → let s : State = record { pc = pc; regs = regs; bytes = M.bytes memory.now } in
        ends_as length result.event result.change s
        ≡ ending_by length alignment profile (Effect.Loads operation rd a) s }
    ensures possible { IsPossible (M.bytes memory.now) result.change }
    ensures calm { stop_of result.change ≢ Some Stop.RecorderRefused }
{
    match load_size(operation) {
        Size::Byte => sized_load_plan(memory, Size::Byte, operation, rd, a),
        Size::Half => sized_load_plan(memory, Size::Half, operation, rd, a),
        Size::Word => sized_load_plan(memory, Size::Word, operation, rd, a),
    }
}

/// The plan of a load of this size.
#[inline(always)]
#[tactic(auto, unfolding(crate::specs::Machine::ending_by))]
fn sized_load_plan<M: Memory>(
    memory: &M,
    size: Size,
    operation: LoadOperation,
    rd: Reg,
    a: u32,
) -> Plan
    requires { size ≡ load_size operation }
    ensures ends { (length alignment : Size) (profile : Profile) (pc : ℕ) (regs : ℕ → ℕ)
        → let s : State = record { pc = pc; regs = regs; bytes = M.bytes memory.now } in
        ends_as length result.event result.change s
        ≡ ending_by length alignment profile (Effect.Loads operation rd a) s }
    ensures possible { IsPossible (M.bytes memory.now) result.change }
    ensures calm { stop_of result.change ≢ Some Stop.RecorderRefused }
{
    if a % size.bytes() != 0 {
        return unseen(Change::Stops(Stop::Misaligned));
    }
    let Some(value) = memory.load(a, size) else {
        return unseen(Change::Stops(Stop::AccessFault));
    };
    Plan {
        event: Some(Event::Load(a, size)),
        change: Change::Writes(rd, operation.value(value)),
    }
}

/// The plan of a store. For each size there is code of its own.
#[inline(always)]
fn store_plan<M: Memory>(memory: &M, operation: StoreOperation, a: u32, value: u32) -> Plan
    ensures ends { (length alignment : Size) (profile : Profile) (pc : ℕ) (regs : ℕ → ℕ)
        → let s : State = record { pc = pc; regs = regs; bytes = M.bytes memory.now } in
        ends_as length result.event result.change s
        ≡ ending_by length alignment profile (Effect.Stores operation a value) s }
    ensures possible { IsPossible (M.bytes memory.now) result.change }
    ensures calm { stop_of result.change ≢ Some Stop.RecorderRefused }
{
    match store_size(operation) {
        Size::Byte => sized_store_plan(memory, Size::Byte, operation, a, value),
        Size::Half => sized_store_plan(memory, Size::Half, operation, a, value),
        Size::Word => sized_store_plan(memory, Size::Word, operation, a, value),
    }
}

/// The plan of a store of this size.
#[inline(always)]
#[tactic(auto, unfolding(crate::specs::Machine::ending_by))]
fn sized_store_plan<M: Memory>(
    memory: &M,
    size: Size,
    operation: StoreOperation,
    a: u32,
    value: u32,
) -> Plan
    requires { size ≡ store_size operation }
    ensures ends { (length alignment : Size) (profile : Profile) (pc : ℕ) (regs : ℕ → ℕ)
        → let s : State = record { pc = pc; regs = regs; bytes = M.bytes memory.now } in
        ends_as length result.event result.change s
        ≡ ending_by length alignment profile (Effect.Stores operation a value) s }
    ensures possible { IsPossible (M.bytes memory.now) result.change }
    ensures calm { stop_of result.change ≢ Some Stop.RecorderRefused }
{
    if a % size.bytes() != 0 {
        return unseen(Change::Stops(Stop::Misaligned));
    }
    if memory.load(a, size).is_none() {
        return unseen(Change::Stops(Stop::AccessFault));
    }
    Plan {
        event: Some(Event::Store(a, size)),
        change: Change::Stores(size, a, value),
    }
}

/// The plan of a jump or a taken branch in code of this alignment, of which its target has to be a multiple.
#[inline(always)]
fn arriving(alignment: Size, target: u32, change: Change) -> Plan
    requires { stop_of change ≡ None }
    ensures arrives { target % byte_count alignment ≡ 0 → result ≡ record { event = None; change = change } }
    ensures misaligned { target % byte_count alignment ≢ 0
        → result ≡ record { event = None; change = Change.Stops Stop.Misaligned } }
    ensures possible { (bytes : ByteMap) → IsPossible bytes change → IsPossible bytes result.change }
    ensures calm { stop_of result.change ≢ Some Stop.RecorderRefused }
{
    if target % alignment.bytes() == 0 {
        unseen(change)
    } else {
        unseen(Change::Stops(Stop::Misaligned))
    }
}

/// What a product of these numbers shows the observer of this profile.
#[inline(always)]
fn product_event(profile: Profile, a: u32, b: u32) -> Option<Event>
    ensures { result ≡ product_shown profile a b }
{
    match profile {
        Profile::P1 => None,
        Profile::P2 => Some(Event::Mul(a, b)),
    }
}

/// The plan of an instruction of this form that does this.
#[inline(always)]
#[tactic(auto, unfolding(crate::specs::Machine::ending_by))]
fn effect_plan<M: Memory>(hart: &Hart, form: InstructionForm, effect: Effect, memory: &M) -> Plan
    ensures ends { let s = state_of hart.now (M.bytes memory.now) in
        ends_as form.length result.event result.change s
        ≡ ending_by form.length form.alignment form.profile effect s }
    ensures possible { IsPossible (M.bytes memory.now) result.change }
    ensures calm { stop_of result.change ≢ Some Stop.RecorderRefused }
{
    match effect {
        Effect::Computes(rd, value) => unseen(Change::Writes(rd, value)),
        Effect::Multiplies(rd, a, b, value) => Plan {
            event: product_event(form.profile, a, b),
            change: Change::Writes(rd, value),
        },
        Effect::Divides(rd, a, b, value) => Plan {
            event: Some(Event::Div(a, b)),
            change: Change::Writes(rd, value),
        },
        Effect::Jumps(rd, target) => arriving(form.alignment, target, Change::Links(rd, target)),
        Effect::Branches(target) => arriving(form.alignment, target, Change::Goes(target)),
        Effect::Passes => unseen(Change::Goes(hart.next(form.length))),
        Effect::Loads(operation, rd, a) => load_plan(memory, operation, rd, a),
        Effect::Stores(operation, a, value) => store_plan(memory, operation, a, value),
        Effect::Calls => unseen(Change::Stops(Stop::Ecall)),
        Effect::Breaks => unseen(Change::Stops(Stop::Break)),
    }
}

/// The plan of this instruction, of this form.
#[inline(always)]
pub(crate) fn instruction_plan<M: Memory>(
    hart: &Hart,
    instr: &Instr,
    form: InstructionForm,
    memory: &M,
) -> Plan
    ensures ends { let s = state_of hart.now (M.bytes memory.now) in
        ends_as form.length result.event result.change s
        ≡ ending_by form.length form.alignment form.profile (effect_of instr.now s.pc s.regs) s }
    ensures possible { IsPossible (M.bytes memory.now) result.change }
    ensures calm { stop_of result.change ≢ Some Stop.RecorderRefused }
{
    effect_plan(hart, form, effect_of(hart, instr), memory)
}

/// The plan of a step, where this word of the code stands at the hart's program counter.
#[inline(always)]
pub(crate) fn plan_of<M: Memory>(
    hart: &Hart,
    code: &CodeRegion,
    word: &CodeWord,
    memory: &M,
) -> Plan
    ensures step { let s = state_of hart.now (M.bytes memory.now) in
        s.pc % 4 ≡ 0 → word_at (code_of code.now) s.pc ≡ Some (spelled word.now) → IsDecoded word.now
        → Step (code_of code.now) s (ends_as Size.Word result.event result.change s) }
    ensures possible { IsPossible (M.bytes memory.now) result.change }
    ensures calm { stop_of result.change ≢ Some Stop.RecorderRefused }
{
    match word {
        CodeWord::Instruction(instr) => {
            instruction_plan(hart, instr, InstructionForm::word(code.profile()), memory)
        }
        CodeWord::Other(_) => unseen(Change::Stops(Stop::Illegal)),
    }
}
