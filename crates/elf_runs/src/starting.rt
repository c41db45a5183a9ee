// What a run of a function begins with.

ghost use Rattle.std.specs.Prelude.{◌≡◌, ◌<◌, ℕ, Some, None, map, slice_index, IfOk, IfErr};
ghost use Rattle.elf_memory.specs.Arguments.{pushed, words_of};
ghost use Rattle.elf_memory.specs.Begin.{register_of};
ghost use Rattle.elf_runs.specs.Below.{function_named};
ghost use Rattle.elf_memory.specs.Memory.{memory_at_start, range_of};
ghost use Rattle.elf_runs.specs.Needs.{argument_needs, each_from, first_unmet, function_needs, IsTold, Meets, needs};
ghost use Rattle.elf_runs.specs.Needs.{stack_needs};

use crate::arguments::words_of;
use crate::fault::{Part, StartFault, Unmet};
use crate::settings::{hide_secrets, set_objects};
use crate::stack::{check_stack, stack_range};
use elf::{ElfRule, Program};
use elf_memory::{Asked, MemoryRange, Registers, Word, global_pointer, loaded_segments};
use std::alloc::Global;

/// What a run begins with: the program counter, what the registers hold, of each of them a mask of the bits that are
/// not known, and the memory: the segments in the order of the file, then the stack. No two of these have an address in
/// common.
#[derive(Drop)]
pub struct Start {
    pub pc: u32,
    pub registers: [u32; 32],
    pub unknown: [u32; 32],
    pub memory: Vec<MemoryRange>,
}

/// Those of the arguments that are on the stack.
fn pushed(words: &[Word]) -> &[Word]
    ensures { result.now ≡ pushed words.now }
{
    if words.len() <= 8 { &[] } else { &words[8..] }
}

/// The address of the function.
fn function_of(program: &Program<'_>, name: &[u8]) -> Result<u32, Unmet>
    ensures met { Meets result (function_needs program.now name.now) }
    ensures address { IfOk result (λ pc. function_named program.now name.now ≡ Some pc) }
{
    match program.function(name) {
        Some(pc) => Ok(pc),
        None => Err(Unmet {
            rule: ElfRule::Symbol,
            part: Part::Function,
        }),
    }
}

/// The memory of a run with these arguments, where the function is there and so are they.
fn memory_for(
    alloc: Global,
    program: &Program<'_>,
    asked: &Asked,
    words: &[Word],
) -> Result<Vec<MemoryRange>, StartFault>
    requires function { first_unmet (function_needs program.now asked.now.function.items) ≡ None }
    requires arguments { first_unmet (each_from (argument_needs program.now) 0 asked.now.arguments.items) ≡ None }
    requires words { words.now ≡ words_of program.now asked.now.arguments.items }
    ensures met { IfOk result (λ _. first_unmet (needs program.now asked.now) ≡ None) }
    ensures stack { IfOk result (λ _. first_unmet (stack_needs program.now asked.now) ≡ None) }
    ensures memory { IfOk result (λ ranges. map range_of ranges.items ≡ memory_at_start program.now asked.now) }
    ensures fault { IfErr result (λ fault. IsTold fault (needs program.now asked.now)) }
{
    let mut ranges = loaded_segments(alloc, program.segments())?;
    hide_secrets(alloc, &mut ranges, program, &asked.secrets)?;
    set_objects(&mut ranges, program, &asked.settings)?;
    check_stack(program, asked)?;
    ranges.push(stack_range(alloc, asked.stack, pushed(words))?)?;
    Ok(ranges)
}

/// What a run of a function begins with, as it is asked for. The function's arguments are in a0 to a7 and on the stack,
/// the stack pointer is a multiple of 16, gp is the program's, and ra an address at which no code stands. All else in
/// the registers and on the stack is unknown, and each bit of what is secret. Else it names what the request breaks
/// first: in this order the function, the arguments, what is secret, what is set, the stack.
pub fn prepare(alloc: Global, program: &Program<'_>, asked: &Asked) -> Result<Start, StartFault>
    ensures met { IfOk result (λ _. first_unmet (needs program.now asked.now) ≡ None) }
    ensures pc { IfOk result (λ start. function_named program.now asked.now.function.items ≡ Some start.pc) }
    ensures registers { IfOk result (λ start. (r : ℕ) → r < 32
        → slice_index start.registers r ≡ (register_of program.now asked.now r).value) }
    ensures unknown { IfOk result (λ start. (r : ℕ) → r < 32
        → slice_index start.unknown r ≡ (register_of program.now asked.now r).unknown) }
    ensures memory { IfOk result (λ start. map range_of start.memory.items ≡ memory_at_start program.now asked.now) }
    ensures fault { IfErr result (λ fault. IsTold fault (needs program.now asked.now)) }
{
    let pc = function_of(program, &asked.function)?;
    let words = words_of(alloc, program, &asked.arguments)?;
    let memory = memory_for(alloc, program, asked, &words)?;
    let Registers { values, unknown } = Registers::new(global_pointer(program), &words);
    Ok(Start {
        pc,
        registers: values,
        unknown,
        memory,
    })
}
