// The lines of instructions, as in a listing of code.

ghost use Rattle.std.specs.Prelude.{◌≡◌, ◌<◌, IfOk};
ghost use Rattle.std.specs.String.{string_bytes};
ghost use Rattle.elf_reports.specs.EncodingLines.{four_digits, IsLineOfEncoding, IsTextOfHalfword};
ghost use Rattle.elf_reports.specs.declared.encodings.Encoding.TheVariants.{Halfword};
ghost use Rattle.listing.specs.Lines.{digit_at, eight_digits};

use crate::encodings::Encoding;
use listing::{eight_digits, word_line};
use rv_code::expand;
use std::alloc::{AllocError, Global};

/// The hexadecimal digit of a halfword at the place of this unit, a power of 16.
fn digit(halfword: u16, unit: u16) -> u8
    requires { 0 < unit }
    ensures { result ≡ digit_at halfword unit }
{
    let value = (halfword / unit % 16) as u8;
    if value < 10 {
        b'0' + value
    } else {
        b'a' - 10 + value
    }
}

/// A halfword in four hexadecimal digits.
fn four_digits(halfword: u16) -> [u8; 4]
    ensures { result ≡ four_digits halfword }
{
    [
        digit(halfword, 0x1000),
        digit(halfword, 0x100),
        digit(halfword, 0x10),
        digit(halfword, 1),
    ]
}

/// The text of the instruction that a halfword means, or `illegal`.
fn text_of(alloc: Global, halfword: u16) -> Result<String, AllocError>
    ensures { IfOk result (λ text. IsTextOfHalfword halfword (string_bytes text)) }
{
    match expand(halfword) {
        Some(instruction) => format!(in alloc; "{instruction}"),
        None => String::from_str(alloc, "illegal"),
    }
}

/// The line of a halfword that stands at an address.
fn halfword_line(alloc: Global, address: u32, halfword: u16) -> Result<Vec<u8>, AllocError>
    ensures { IfOk result (λ line. IsLineOfEncoding address (Halfword halfword) line.items) }
{
    let text = text_of(alloc, halfword)?;
    let mut line = Vec::new(alloc);
    line.extend_from_slice(eight_digits(address).as_slice())?;
    line.extend_from_slice(b" ")?;
    line.extend_from_slice(four_digits(halfword).as_slice())?;
    line.extend_from_slice(b" ")?;
    line.extend_from_slice(text.as_bytes())?;
    line.extend_from_slice(b"\n")?;
    Ok(line)
}

/// The line of what begins at an address, as in a listing of code: a halfword in four digits, with the text of the
/// instruction that it means.
pub fn encoding_line(alloc: Global, address: u32, encoding: Encoding) -> Result<Vec<u8>, AllocError>
    ensures { IfOk result (λ line. IsLineOfEncoding address encoding line.items) }
{
    match encoding {
        Encoding::Word(word) => word_line(alloc, address, word),
        Encoding::Halfword(halfword) => halfword_line(alloc, address, halfword),
    }
}
