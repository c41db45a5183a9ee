// Numbers of 1, 2 or 4 bytes, one after another in a memory.

ghost use Rattle.std.specs.Prelude.{◌≡◌, ℕ, ◌+◌, ◌*◌, ◌^◌, ◌<◌, ◌≤◌, true, is_some, [], length, vec_capacity};
ghost use Rattle.hepurita.specs.Below.{byte_count, element_bytes, numbers_at, with_numbers};

use language::Kind;
use rv_machine::memory::{Memory, Size};

/// How an element of an array is loaded and stored.
pub fn element_size(kind: Kind) -> Size
    ensures { byte_count result ≡ element_bytes kind }
{
    match kind {
        Kind::Boolean | Kind::Uint8 => Size::Byte,
        Kind::Uint16 => Size::Half,
        Kind::Uint32 => Size::Word,
    }
}

/// Puts numbers one after another, from this address on.
pub fn put_numbers<M: Memory>(memory: &mut M, at: u32, size: Size, numbers: &[u32])
    requires below { at + byte_count size * length numbers.now ≤ 2 ^ 32 }
    requires data { (x : ℕ)
        → at ≤ x
        → x < at + byte_count size * length numbers.now
        → is_some (M.bytes memory.old x) ≡ true }
    ensures { M.bytes memory.new ≡ with_numbers (M.bytes memory.old) (byte_count size) at numbers.now }
{
    let step = size.bytes();
    for (index, number) in numbers.iter().enumerate() {
        memory.store(at + step * (index as u32), size, *number);
    }
}

/// So many numbers one after another, from this address on, in a list that has room for them. One that is
/// no data is 0.
pub fn numbers<M: Memory>(
    memory: &M,
    at: u32,
    size: Size,
    count: u16,
    mut room: Vec<u32>,
) -> Vec<u32>
    requires below { at + byte_count size * count ≤ 2 ^ 32 }
    requires empty { room.items ≡ [] }
    requires room { count ≤ vec_capacity room }
    ensures { result.items ≡ numbers_at (M.bytes memory.now) (byte_count size) at count }
{
    let step = size.bytes();
    for index in 0..u32::from(count) {
        let number = memory.load(at + step * index, size);
        room.push_reserved(number.unwrap_or(0));
    }
    room
}
