// The numbers in a file, the lowest byte first. A byte behind the end of the file reads as 0, so that a place needs no
// check before it is read.

ghost use Rattle.std.specs.Prelude.{◌≡◌, ◌+◌, ◌≤◌, length, drop, slice_index};
ghost use Rattle.elf.specs.Numbers.{byte_at, half_at, part, word_at};

/// The bytes from a place on.
pub(crate) fn rest_at(bytes: &[u8], place: usize) -> &[u8]
    ensures { result.now ≡ drop place bytes.now }
{
    if place < bytes.len() {
        &bytes[place..]
    } else {
        &[]
    }
}

/// The byte at a place.
fn item(bytes: &[u8], place: usize) -> u8
    ensures { result ≡ slice_index bytes.now place }
{
    if place < bytes.len() { bytes[place] } else { 0 }
}

/// The number of one byte.
#[tactic(auto, unfolding(crate::specs::Numbers::number_at))]
pub(crate) fn byte_at(bytes: &[u8], place: usize) -> u8
    ensures { result ≡ byte_at place bytes.now }
{
    item(rest_at(bytes, place), 0)
}

/// The number of two bytes.
#[tactic(auto, unfolding(crate::specs::Numbers::number_at))]
pub(crate) fn half_at(bytes: &[u8], place: usize) -> u16
    ensures { result ≡ half_at place bytes.now }
{
    let rest = rest_at(bytes, place);
    let low = u16::from(item(rest, 0));
    let high = u16::from(item(rest, 1));
    low + 256 * high
}

/// The number of four bytes.
#[tactic(auto, unfolding(crate::specs::Numbers::number_at))]
pub(crate) fn word_at(bytes: &[u8], place: usize) -> u32
    ensures { result ≡ word_at place bytes.now }
{
    let rest = rest_at(bytes, place);
    let first = u32::from(item(rest, 0));
    let second = u32::from(item(rest, 1));
    let third = u32::from(item(rest, 2));
    let fourth = u32::from(item(rest, 3));
    first + 256 * (second + 256 * (third + 256 * fourth))
}

/// So many bytes from a place on.
pub(crate) fn part(bytes: &[u8], place: usize, size: usize) -> &[u8]
    requires { place + size ≤ length bytes.now }
    ensures { result.now ≡ part place size bytes.now }
{
    &bytes[place..place + size]
}
