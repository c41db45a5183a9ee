// The stack, and what it has to be.

ghost use Rattle.std.specs.Prelude.{◌≡◌, ◌*◌, ◌+◌, ◌<◌, ◌≤◌, ◌^◌, length, IfOk, nat_le};
ghost use Rattle.std.specs.List.{list_all};
ghost use Rattle.elf_memory.specs.Arguments.{rounded, stack_begin};
ghost use Rattle.elf_runs.specs.Below.{memory_of, most_memory};
ghost use Rattle.elf_memory.specs.Memory.{range_of, stack_range};
ghost use Rattle.elf_runs.specs.Needs.{Meets, ends_by, stack_needs};

use crate::fault::{Part, Unmet};
use crate::needs::require;
use elf::{Access, ElfRule, Program, Segment};
use elf_memory::{Asked, MemoryRange, STACK_END, Word, rounded};
use std::alloc::{AllocError, Global};

/// The most bytes of memory that the segments and the stack have together.
const MOST_MEMORY: u32 = 1 << 24;

/// Whether segments and a stack are not too large together.
fn fits(segments: &[Segment<'_>], stack: u32) -> bool
    ensures { result ≡ nat_le (memory_of segments.now + stack) most_memory }
{
    if stack > MOST_MEMORY {
        return false;
    }
    let mut room = MOST_MEMORY - stack;
    'segments: for segment in segments {
        if segment.size() > room {
            return false;
        }
        room -= segment.size();
    }
    true
}

/// Whether the segment ends at this address or before.
fn ends_by(address: u64, segment: &Segment<'_>) -> bool
    ensures { result ≡ ends_by address segment.now }
{
    u64::from(segment.address()) + u64::from(segment.size()) <= address
}

/// Whether each segment ends before a stack of this size begins.
fn leave_room(segments: &[Segment<'_>], stack: u32) -> bool
    ensures { result ≡ list_all (ends_by (stack_begin stack)) segments.now }
{
    let begin = u64::from(STACK_END.saturating_sub(stack));
    segments.iter().all(|segment| ends_by(begin, segment))
}

/// Checks the stack.
pub(crate) fn check_stack(program: &Program<'_>, asked: &Asked) -> Result<(), Unmet>
    ensures { Meets result (stack_needs program.now asked.now) }
{
    let size = asked.stack;
    let segments = program.segments();
    let pushed = asked.arguments.len().saturating_sub(8);
    require(ElfRule::Argument, Part::Stack, size % 16 == 0)?;
    require(ElfRule::Argument, Part::Stack, pushed <= size as usize / 4)?;
    require(ElfRule::Ranges, Part::Stack, fits(segments, size))?;
    require(ElfRule::Ranges, Part::Stack, leave_room(segments, size))
}

/// The stack of this size, with these arguments.
pub(crate) fn stack_range(
    alloc: Global,
    size: u32,
    words: &[Word],
) -> Result<MemoryRange, AllocError>
    requires size { size ≤ 2 ^ 24 }
    requires room { rounded (4 * length words.now) ≤ size }
    ensures { IfOk result (λ range. range_of range ≡ stack_range size words.now) }
{
    let below = size as usize - rounded(4 * words.len() as u64) as usize;
    let mut bytes = vec![in alloc; 0u8; below]?;
    let mut unknown = vec![in alloc; 255u8; below]?;
    'words: for word in words {
        bytes.extend_from_slice(&word.value.to_le_bytes())?;
        unknown.extend_from_slice(&word.unknown.to_le_bytes())?;
    }
    bytes.resize(size as usize, 0)?;
    unknown.resize(size as usize, 255)?;
    Ok(MemoryRange {
        address: STACK_END - size,
        bytes,
        unknown,
        access: Access {
            readable: true,
            writable: true,
            executable: false,
        },
    })
}
