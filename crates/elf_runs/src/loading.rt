// A function, loaded into a machine, and what is known of the state in which its run begins.

ghost use Rattle.std.specs.Prelude.{◌≡◌, ℕ, None, map, is_some, IfOk, IfErr};
ghost use Rattle.elf_runs.specs.Below.{code_in, known_of, no_code, paged_bytes, program_of, Size, state_of};
ghost use Rattle.elf_runs.specs.Needs.{first_unmet, IsTold, needs};
ghost use Rattle.elf_runs.specs.Code.{halfwords_from, placed, words_from};
ghost use Rattle.elf_memory.specs.Memory.{range_of};
ghost use Rattle.elf_runs.specs.Loading.{alignment_by, code_among, known_at_start, machine_program};
ghost use Rattle.elf_runs.specs.private.Loaded.{IsSegmentOf, program_over};

use crate::code::program_code;
use crate::fault::StartFault;
use crate::loaded_code::{Code, PlacedHalfwords, PlacedWords};
use crate::options::RunOptions;
use crate::starting::{Start, prepare};
use certified_runs::{KnownParts, Shifts};
use elf::Program;
use elf_memory::{Asked, MemoryRange, marks_of, memory_of, variable_ranges};
use rv_machine::hart::Hart;
use rv_machine::{PagedMemory, Running, Size};
use rv_programs::{CodeSegment, LoadedProgram};
use std::alloc::{AllocError, Global};
use word::Profile;

/// A run of a function that has not begun yet: the program, the machine, and what is known of its state.
#[derive(Drop)]
pub struct LoadedFunction {
    pub program: LoadedProgram,
    pub run: Running<PagedMemory>,
    pub known: KnownParts<PagedMemory>,
}

/// The segment of words, if there are any.
fn word_segment(
    alloc: Global,
    code: &PlacedWords,
    profile: Profile,
) -> Result<Option<CodeSegment>, AllocError>
    ensures { IfOk result (IsSegmentOf profile (words_from code.now.begin code.now.words.items)) }
{
    if code.words.is_empty() {
        return Ok(None);
    }
    let begin = code.begin as u32;
    let segment = CodeSegment::new(alloc, begin, code.words.as_slice(), profile)?;
    Ok(Some(segment))
}

/// The segment of halfwords, if there are any.
fn halfword_segment(
    alloc: Global,
    code: &PlacedHalfwords,
    profile: Profile,
) -> Result<Option<CodeSegment>, AllocError>
    ensures { IfOk result (IsSegmentOf profile (halfwords_from code.now.begin code.now.halfwords.items)) }
{
    if code.halfwords.is_empty() {
        return Ok(None);
    }
    let begin = code.begin as u32;
    let segment = CodeSegment::of_halfwords(alloc, begin, code.halfwords.as_slice(), profile)?;
    Ok(Some(segment))
}

/// The segment of code, if there is any.
fn code_segment(
    alloc: Global,
    code: &Code,
    profile: Profile,
) -> Result<Option<CodeSegment>, AllocError>
    ensures { IfOk result (IsSegmentOf profile (placed code.now)) }
{
    match code {
        Code::Words(code) => word_segment(alloc, code, profile),
        Code::Halfwords(code) => halfword_segment(alloc, code, profile),
    }
}

/// Code, as segments of the machine's.
fn code_segments(
    alloc: Global,
    codes: &[Code],
    profile: Profile,
) -> Result<Vec<CodeSegment>, AllocError>
    ensures { IfOk result (λ segments. (alignment : Size) → code_in (no_code alignment profile) segments.items
        ≡ code_among alignment profile (map placed codes.now)) }
{
    let mut segments = Vec::new(alloc);
    'each: for code in codes {
        if let Some(segment) = code_segment(alloc, code, profile)? {
            segments.push(segment)?;
        }
    }
    Ok(segments)
}

/// Where instructions begin: at multiples of so many bytes.
fn alignment_of(compressed: bool) -> Size
    ensures { result ≡ alignment_by compressed }
{
    if compressed { Size::Half } else { Size::Word }
}

/// What a program is to the machine, where a run begins with this memory.
fn loaded_program(
    alloc: Global,
    program: &Program<'_>,
    ranges: &[MemoryRange],
    profile: Profile,
) -> Result<LoadedProgram, AllocError>
    ensures { IfOk result (λ loaded.
        program_of loaded ≡ program_over program.now (map range_of ranges.now) profile) }
{
    let codes = program_code(alloc, program)?;
    let segments = code_segments(alloc, codes.as_slice(), profile)?;
    let alignment = alignment_of(program.compressed());
    let variable = variable_ranges(alloc, ranges)?;
    LoadedProgram::new(alloc, alignment, profile, segments, variable)
}

/// A function, loaded as it is asked for; else what the request does not meet first.
pub fn load_function(
    alloc: Global,
    program: &Program<'_>,
    asked: &Asked,
    options: RunOptions,
) -> Result<LoadedFunction, StartFault>
    ensures met { IfOk result (λ _. first_unmet (needs program.now asked.now) ≡ None) }
    ensures program { IfOk result (λ loaded.
        program_of loaded.program ≡ machine_program program.now asked.now options.profile) }
    ensures known { IfOk result (λ loaded.
        known_of (state_of loaded.run.hart (paged_bytes loaded.run.memory)) loaded.known.registers
        (paged_bytes loaded.known.marks) loaded.known.shifts
        ≡ known_at_start program.now asked.now options.shifts) }
    ensures extent { IfOk result (λ loaded. (a : ℕ)
        → is_some (paged_bytes loaded.known.marks a) ≡ is_some (paged_bytes loaded.run.memory a)) }
    ensures steps { IfOk result (λ loaded. loaded.run.steps_left ≡ options.steps) }
    ensures fault { IfErr result (λ fault. IsTold fault (needs program.now asked.now)) }
{
    let start = prepare(alloc, program, asked)?;
    let ranges = start.memory.as_slice();
    let program = loaded_program(alloc, program, ranges, options.profile)?;
    let known = KnownParts {
        registers: start.unknown,
        marks: marks_of(alloc, ranges)?,
        shifts: options.shifts,
    };
    Ok(LoadedFunction {
        program,
        run: Running {
            hart: Hart::with_registers(start.pc, start.registers),
            memory: memory_of(alloc, ranges)?,
            steps_left: options.steps,
        },
        known,
    })
}
