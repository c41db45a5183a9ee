ghost use Rattle.std.specs.Prelude.{◌≡◌, ◌+◌, ◌<◌, ◌≤◌, ◌^◌, length};
ghost use Rattle.tokens.specs.Tokens.{next_place, place_after};

use crate::Place;

/// The place after some bytes.
pub fn place_after(from: Place, bytes: &[u8]) -> Place
    requires room { from.offset + length bytes.now < 2 ^ 31 }
    requires line { from.line ≤ from.offset + 1 }
    requires column { from.column ≤ from.offset + 1 }
    ensures value { result ≡ place_after from bytes.now }
    ensures offset { result.offset ≡ from.offset + length bytes.now }
    ensures line { result.line ≤ result.offset + 1 }
    ensures column { result.column ≤ result.offset + 1 }
{
    let mut place = from;
    for byte in bytes {
        place = next_place(place, *byte);
    }
    place
}

/// The place after one byte.
fn next_place(place: Place, byte: u8) -> Place
    requires offset { place.offset < 2 ^ 31 }
    requires line { place.line < 2 ^ 31 + 1 }
    requires column { place.column < 2 ^ 31 + 1 }
    ensures { result ≡ next_place place byte }
{
    if byte == b'\n' {
        Place {
            offset: place.offset + 1,
            line: place.line + 1,
            column: 1,
        }
    } else {
        Place {
            offset: place.offset + 1,
            line: place.line,
            column: place.column + 1,
        }
    }
}
