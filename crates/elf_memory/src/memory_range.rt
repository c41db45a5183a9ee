// Ranges of memory.

ghost use Rattle.std.specs.Prelude.{◌≡◌, ◌+◌, ◌<◌, ◌≤◌, ◌^◌, vec_len};

use elf::Access;

/// A range of memory: its first address, its bytes, for each of these a mask of its bits that are not known, and what
/// may be done with them. What a bit that is not known is in the bytes means nothing.
#[derive(Drop)]
pub struct MemoryRange {
    pub address: u32,
    pub bytes: Vec<u8>,
    pub unknown: Vec<u8>,
    pub access: Access,
    ghost within: { address + vec_len bytes ≤ 2 ^ 32 },
    ghost few: { vec_len bytes < 2 ^ 32 },
    ghost masked: { vec_len unknown ≡ vec_len bytes },
}
