// One step of what is known: it is asked what decides it, and then made by the machine.

ghost use Rattle.std.specs.Prelude.{◌≡◌, [], List, length};
ghost use Rattle.certified_runs.specs.Below.{StepEnding, entries_of, followed_by, Instr, Observation, pc_of};
ghost use Rattle.certified_runs.specs.Below.{ProgramStep, StandsAt, state_of};
ghost use Rattle.certified_runs.specs.Parts.{known_of};
ghost use Rattle.certified_runs.specs.private.Stepped.{HaveOneExtent, HasStepped};

use crate::changes::{change, decides};
use crate::known_parts::KnownParts;
use rv_machine::{Hart, Memory, Observation, Stop, entry_count};
use rv_programs::{Fetched, Program, execute_unrecorded, step_unrecorded};

/// How a step of what is known ends.
#[derive(Clone, Copy)]
pub(crate) enum StepEnd {
    /// It shows so many entries and goes on.
    LeadsOn(u64),
    /// It shows so many entries and stops.
    Ends(u64, Stop),
    /// What it shows may depend on what is unknown. It was not made.
    Depends,
}

// How many entries a step shows.
#[inline(always)]
fn entries_in(seen: Option<Observation>) -> u64
    ensures { result ≡ length (entries_of (followed_by seen [])) }
{
    match seen {
        Some(observation) => entry_count(&observation),
        None => 0,
    }
}

// Makes the step where no instruction stands at the program counter, and answers how many entries it shows, and
// why it stops. It is apart, so that the other steps need not ask again whether an instruction does.
#[cold]
#[inline(never)]
fn halt<P: Program, M: Memory>(program: &P, hart: &mut Hart, memory: &mut M) -> (u64, Stop)
    requires { (i : Instr) → ¬ StandsAt (P.program program.now) (pc_of hart.old) i }
    ensures stops { (seen : List Observation)
        × ProgramStep (P.program program.now) (state_of hart.old (M.bytes memory.old)) (StepEnding.stops seen result.1)
        × (length (entries_of seen) ≡ result.0) }
    ensures stays { state_of hart.new (M.bytes memory.new) ≡ state_of hart.old (M.bytes memory.old) }
    ensures extent { HaveOneExtent (M.bytes memory.new) (M.bytes memory.old) }
{
    let (seen, stop) = step_unrecorded(hart, program, memory);
    match stop {
        Some(stop) => (entries_in(seen), stop),
        None => unreachable!(),
    }
}

/// Makes the next step of what is known, unless what it shows may depend on what is unknown.
#[inline(always)]
pub(crate) fn known_step<P: Program, M: Memory>(
    program: &P,
    hart: &mut Hart,
    memory: &mut M,
    known: &mut KnownParts<M>,
) -> StepEnd
    requires { HaveOneExtent (M.bytes known.old.marks) (M.bytes memory.old) }
    ensures stepped { HasStepped (P.program program.now)
        (known_of (state_of hart.old (M.bytes memory.old)) known.old.registers (M.bytes known.old.marks)
        known.old.shifts) result
        (known_of (state_of hart.new (M.bytes memory.new)) known.new.registers (M.bytes known.new.marks)
        known.new.shifts) }
    ensures extent { HaveOneExtent (M.bytes known.new.marks) (M.bytes memory.new) }
{
    let Fetched::Instruction(instr, form) = program.fetch(hart.pc()) else {
        let (entries, stop) = halt(program, hart, memory);
        return StepEnd::Ends(entries, stop);
    };
    if !decides(form.profile, instr, hart, known) {
        return StepEnd::Depends;
    }
    // What is known afterwards is made of what the registers hold before. Where the step stops, it is of no use.
    change(instr, hart, known);
    let (seen, stop) = execute_unrecorded(hart, program, instr, form, memory);
    let entries = entry_count(&seen);
    match stop {
        Some(stop) => StepEnd::Ends(entries, stop),
        None => StepEnd::LeadsOn(entries),
    }
}
