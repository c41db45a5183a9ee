// The lines of what an observer sees.

ghost use Rattle.std.specs.Prelude.{◌≡◌, ◌+◌, ◌≤◌, ◌++◌, ◌∷◌, [], codes, length};
ghost use Rattle.arrayvec.specs.ArrayVec.{array_vec_len};
ghost use Rattle.listing.specs.Lines.{eight_digits, size_text, event_line, lines_of, stop_line, word_head};

use crate::digits::eight_digits;
use arrayvec::ArrayVec;
use rv_machine::{Event, Observation, Size, Stop};

/// Text of a fixed capacity: as many bytes as the longest lines of one step have.
pub type Lines = ArrayVec<u8, 34>;

/// Puts bytes at the end of lines that have room for them.
fn append(lines: &mut Lines, bytes: &[u8])
    requires { array_vec_len lines.old + length bytes.now ≤ 34 }
    ensures { lines.new.items ≡ lines.old.items ++ bytes.now }
{
    // There is room.
    let _ = lines.try_extend_from_slice(bytes);
}

/// How many bytes a size has, in decimal.
fn text_of(size: Size) -> [u8; 1]
    ensures { result ≡ size_text size }
{
    match size {
        Size::Byte => *b"1",
        Size::Half => *b"2",
        Size::Word => *b"4",
    }
}

/// Puts the line of an access at the end: its name, its address and how many bytes it takes.
fn append_access(lines: &mut Lines, name: &[u8], a: u32, size: Size)
    requires { array_vec_len lines.old + length name.now + 11 ≤ 34 }
    ensures { lines.new.items
        ≡ lines.old.items ++ (name.now ++ eight_digits a ++ codes " " ++ size_text size ++ codes "\n") }
{
    append(lines, name);
    append(lines, &eight_digits(a));
    append(lines, b" ");
    append(lines, &text_of(size));
    append(lines, b"\n");
}

/// Puts the line of an operation at the end: its name and its operands.
fn append_operation(lines: &mut Lines, name: &[u8], a: u32, b: u32)
    requires { array_vec_len lines.old + length name.now + 18 ≤ 34 }
    ensures { lines.new.items
        ≡ lines.old.items ++ (name.now ++ eight_digits a ++ codes " " ++ eight_digits b ++ codes "\n") }
{
    append(lines, name);
    append(lines, &eight_digits(a));
    append(lines, b" ");
    append(lines, &eight_digits(b));
    append(lines, b"\n");
}

/// Puts the line of an event at the end.
fn append_event(lines: &mut Lines, event: Event)
    requires { array_vec_len lines.old ≤ 12 }
    ensures { lines.new.items ≡ lines.old.items ++ event_line event }
{
    match event {
        Event::Load(a, size) => append_access(lines, b"load ", a, size),
        Event::Store(a, size) => append_access(lines, b"store ", a, size),
        Event::Div(a, b) => append_operation(lines, b"div ", a, b),
        Event::Mul(a, b) => append_operation(lines, b"mul ", a, b),
    }
}

/// The lines of what one step shows.
pub fn lines_of(seen: &Observation) -> Lines
    ensures { result.items ≡ lines_of (seen.now ∷ []) }
{
    let mut lines = Lines::new();
    append(&mut lines, b"pc ");
    append(&mut lines, &eight_digits(seen.pc));
    append(&mut lines, b"\n");
    if let Some(event) = seen.event {
        append_event(&mut lines, event);
    }
    lines
}

/// How the line of a word begins: its address and itself.
pub fn head_of_word(address: u32, word: u32) -> Lines
    ensures { result.items ≡ word_head address word }
{
    let mut line = Lines::new();
    append(&mut line, &eight_digits(address));
    append(&mut line, b" ");
    append(&mut line, &eight_digits(word));
    append(&mut line, b" ");
    line
}

/// The line of a stop.
pub fn stop_line(stop: Stop) -> Lines
    ensures { result.items ≡ stop_line stop }
{
    let mut line = Lines::new();
    append(&mut line, b"stop ");
    append(&mut line, stop.name().as_bytes());
    append(&mut line, b"\n");
    line
}
