// What the memory holds when a run begins.

ghost use Rattle.std.specs.Prelude.{◌≡◌, ◌+◌, ◌≤◌, ◌^◌, [], length, map, vec_len, IfOk, OnOk};
ghost use Rattle.elf_memory.specs.Below.{AreApart};
ghost use Rattle.elf_memory.specs.Memory.{loaded, range_of, with_bytes, with_object, with_secret};

use crate::memory_range::MemoryRange;
use elf::{Object, Segment};
use std::alloc::{AllocError, Global};

/// Puts a part at an object's address, if the items, which begin at an address, have the object.
fn put(items: &mut Vec<u8>, address: u32, object: Object, part: &[u8])
    requires { length part.now ≤ object.size }
    ensures items { items.new.items ≡ with_object address object part.now items.old.items }
    ensures count { vec_len items.new ≡ vec_len items.old }
{
    let begin = u64::from(address);
    let place = u64::from(object.address);
    let end = begin + items.len() as u64;
    if begin <= place && place + u64::from(object.size) <= end {
        let at = (place - begin) as usize;
        items[at..at + part.len()].copy_from_slice(part);
    }
}

/// Makes an object begin with these bytes.
pub fn set_object(ranges: &mut Vec<MemoryRange>, object: Object, bytes: &[u8])
    requires { length bytes.now ≤ object.size }
    ensures { map range_of ranges.new.items ≡ map (with_bytes object bytes.now) (map range_of ranges.old.items) }
{
    'each: for k in 0..ranges.len() {
        let range = &mut ranges[k];
        put(&mut range.bytes, range.address, object, bytes);
    }
}

/// Makes each bit of an object unknown.
pub fn hide_object(
    alloc: Global,
    ranges: &mut Vec<MemoryRange>,
    object: Object,
) -> Result<(), AllocError>
    ensures { OnOk result (map range_of ranges.new.items ≡ map (with_secret object) (map range_of ranges.old.items)) }
{
    let part = vec![in alloc; 255u8; object.size as usize]?;
    'each: for k in 0..ranges.len() {
        let range = &mut ranges[k];
        put(&mut range.unknown, range.address, object, &part);
    }
    Ok(())
}

/// A segment: what the file has of it, and zeros behind that.
fn loaded(alloc: Global, segment: &Segment<'_>) -> Result<MemoryRange, AllocError>
    requires { segment.now.address + segment.now.size ≤ 2 ^ 32 }
    ensures { IfOk result (λ range. range_of range ≡ loaded segment.now) }
{
    let size = segment.size() as usize;
    let mut bytes = Vec::with_capacity(alloc, size)?;
    bytes.extend_from_slice(segment.bytes())?;
    bytes.resize(size, 0)?;
    Ok(MemoryRange {
        address: segment.address(),
        bytes,
        unknown: vec![in alloc; 0u8; size]?,
        access: segment.access(),
    })
}

/// The segments, in their order.
pub fn loaded_segments(
    alloc: Global,
    segments: &[Segment<'_>],
) -> Result<Vec<MemoryRange>, AllocError>
    requires { AreApart [] segments.now }
    ensures { IfOk result (λ ranges. map range_of ranges.items ≡ map loaded segments.now) }
{
    let mut ranges = Vec::new(alloc);
    'segments: for segment in segments {
        ranges.push(loaded(alloc, segment)?)?;
    }
    Ok(ranges)
}
