// The calls that lead to a step of a run.

ghost use Rattle.std.specs.Prelude.{◌≡◌, [], None, drop, length, IfOk, IfErr, IfSome};
ghost use Rattle.elf_runs.specs.Below.{entries_of, followed_by, Instr, StandsAt, state_of};
ghost use Rattle.elf_runs.specs.Needs.{first_unmet, IsTold, needs};
ghost use Rattle.elf_runs.specs.Calls.{calls_behind, LeadThere, with_call};
ghost use Rattle.elf_runs.specs.Loading.{machine_program, state_at_start};

use crate::fault::StartFault;
use crate::loading::load_function;
use crate::options::RunOptions;
use arrayvec::ArrayVec;
use elf::Program;
use elf_memory::Asked;
use rv_code::{Instr, Reg};
use rv_machine::hart::Hart;
use rv_machine::memory::Memory;
use rv_machine::{Observation, entry_count};
use rv_programs::{Fetched, Program as MachineProgram, step_unrecorded};
use std::alloc::Global;

/// The number of `ra`, the register that has the address which a call returns to.
const RETURN_REGISTER: u8 = 1;

/// The addresses of calls, the last call first.
pub type Calls = ArrayVec<u32, 64>;

/// Puts a call in front; the oldest is forgotten where there are too many.
fn call(calls: &mut Calls, pc: u32)
    ensures { calls.new.items ≡ with_call pc calls.old.items }
{
    calls.truncate(63);
    calls.insert(0, pc);
}

/// Forgets the last call, where there is one.
fn come_back(calls: &mut Calls)
    ensures { calls.new.items ≡ drop 1 calls.old.items }
{
    calls.pop_at(0);
}

/// Notes an instruction at this address.
fn note(calls: &mut Calls, pc: u32, instr: &Instr)
    ensures { calls.new.items ≡ calls_behind pc instr.now calls.old.items }
{
    match *instr {
        Instr::Jump(rd, _) => {
            if rd.number() == RETURN_REGISTER {
                call(calls, pc);
            }
        }
        Instr::JumpRegister(rd, rs1, _) => {
            if rd.number() == RETURN_REGISTER {
                call(calls, pc);
            } else if rd == Reg::X0 && rs1.number() == RETURN_REGISTER {
                come_back(calls);
            }
        }
        Instr::Upper(_, _, _) | Instr::Branch(_, _, _, _) => {}
        Instr::Load(_, _, _, _) | Instr::Store(_, _, _, _) => {}
        Instr::Immediate(_, _, _, _) | Instr::Shift(_, _, _, _) => {}
        Instr::Register(_, _, _, _) | Instr::Multiply(_, _, _, _) | Instr::Divide(_, _, _, _) => {}
        Instr::Fence(_, _, _, _, _) | Instr::Ecall | Instr::Ebreak => {}
    }
}

/// How many entries a step shows.
fn entries_in(seen: Option<Observation>) -> u64
    ensures { result ≡ length (entries_of (followed_by seen [])) }
{
    match seen {
        Some(observation) => entry_count(&observation),
        None => 0,
    }
}

/// The instruction that stands at an address, if one does.
fn instruction_at<P: MachineProgram>(program: &P, pc: u32) -> Option<&Instr>
    ensures there { IfSome result (λ instr. StandsAt (P.program program.now) pc instr.now) }
    ensures none { result ≡ None → (i : Instr) → ¬ StandsAt (P.program program.now) pc i }
{
    match program.fetch(pc) {
        Fetched::Instruction(instr, _) => Some(instr),
        Fetched::Misaligned | Fetched::Nothing | Fetched::Unknown => None,
    }
}

/// The calls that lead to the step behind so many entries.
pub fn calls_behind_entries<P: MachineProgram, M: Memory>(
    program: &P,
    hart: &mut Hart,
    memory: &mut M,
    entries: u64,
) -> Calls
    ensures { LeadThere (P.program program.now) (state_of hart.old (M.bytes memory.old)) entries result.items }
{
    let mut calls = Calls::new();
    let mut left = entries;
    'steps: while left > 0 {
        let pc = hart.pc();
        let Some(instr) = instruction_at(program, pc) else {
            return calls;
        };
        note(&mut calls, pc, instr);
        let (seen, stop) = step_unrecorded(hart, program, memory);
        if stop.is_some() {
            return calls;
        }
        left = left.saturating_sub(entries_in(seen));
    }
    calls
}

/// The calls that lead to the step behind so many entries of the function's run, the last one first: at most 64. The
/// run is that in which each bit that is not known is as it stands when it begins; up to the first entry that may
/// differ all runs make the same steps.
pub fn calls_to(
    alloc: Global,
    program: &Program<'_>,
    asked: &Asked,
    options: RunOptions,
    entries: u64,
) -> Result<Calls, StartFault>
    ensures calls { IfOk result (λ calls. LeadThere (machine_program program.now asked.now options.profile)
        (state_at_start program.now asked.now) entries calls.items) }
    ensures met { IfOk result (λ _. first_unmet (needs program.now asked.now) ≡ None) }
    ensures fault { IfErr result (λ fault. IsTold fault (needs program.now asked.now)) }
{
    let mut loaded = load_function(alloc, program, asked, options)?;
    Ok(calls_behind_entries(
        &loaded.program,
        &mut loaded.run.hart,
        &mut loaded.run.memory,
        entries,
    ))
}
