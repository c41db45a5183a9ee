// What ranges of memory are to a machine: what may be stored to, the bytes, and the masks of bits that are not known.

ghost use Rattle.std.specs.Prelude.{◌≡◌, ◌+◌, ℕ, None, length, map, IfOk};
ghost use Rattle.elf_memory.specs.Below.{lies_within, paged_bytes};
ghost use Rattle.elf_memory.specs.Memory.{range_of};
ghost use Rattle.elf_memory.specs.Ranges.{is_variable, item_at, may_be_stored_to};

use crate::memory_range::MemoryRange;
use rv_machine::{AddressRange, PagedMemory};
use std::alloc::{AllocError, Global};

/// The addresses of a range.
fn addresses_of(range: &MemoryRange) -> AddressRange
    ensures begin { result.begin ≡ range.now.address }
    ensures end { result.end ≡ range.now.address + length range.now.bytes.items }
{
    let begin = u64::from(range.address);
    AddressRange {
        begin,
        end: begin + range.bytes.len() as u64,
    }
}

/// Whether a range may be stored to.
fn is_variable(range: &MemoryRange) -> bool
    ensures { result ≡ is_variable (range_of range.now) }
{
    range.access.writable && !range.access.executable
}

/// The ranges that may be stored to.
pub fn variable_ranges(
    alloc: Global,
    ranges: &[MemoryRange],
) -> Result<Vec<AddressRange>, AllocError>
    ensures { IfOk result (λ variable.
        lies_within variable.items ≡ may_be_stored_to (map range_of ranges.now)) }
{
    let mut variable = Vec::new(alloc);
    'each: for range in ranges {
        if is_variable(range) {
            variable.push(addresses_of(range))?;
        }
    }
    Ok(variable)
}

/// A memory without data.
fn no_memory(alloc: Global) -> Result<PagedMemory, AllocError>
    ensures { IfOk result (λ memory. (a : ℕ) → paged_bytes memory a ≡ None) }
{
    PagedMemory::new(alloc, &[])
}

/// A memory of the ranges' bytes. The last range comes first in it: that is the stack, where most accesses are.
pub fn memory_of(alloc: Global, ranges: &[MemoryRange]) -> Result<PagedMemory, AllocError>
    ensures { IfOk result (λ memory.
        paged_bytes memory ≡ item_at (λ range. range.bytes) (map range_of ranges.now)) }
{
    let mut memory = no_memory(alloc)?;
    'each: for k in (0..ranges.len()).rev() {
        let range = &ranges[k];
        let size = range.bytes.len() as u32;
        memory.add(alloc, range.address, size, range.bytes.as_slice())?;
    }
    Ok(memory)
}

/// A memory of the masks of their bits that are not known.
pub fn marks_of(alloc: Global, ranges: &[MemoryRange]) -> Result<PagedMemory, AllocError>
    ensures { IfOk result (λ memory.
        paged_bytes memory ≡ item_at (λ range. range.unknown) (map range_of ranges.now)) }
{
    let mut memory = no_memory(alloc)?;
    'each: for k in (0..ranges.len()).rev() {
        let range = &ranges[k];
        let size = range.unknown.len() as u32;
        memory.add(alloc, range.address, size, range.unknown.as_slice())?;
    }
    Ok(memory)
}
