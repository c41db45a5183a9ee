// The code of a program.

ghost use Rattle.std.specs.Prelude.{◌≡◌, ◌<◌, ◌%◌, drop, length, map, IfOk};
ghost use Rattle.elf_runs.specs.Below.{IsWithin};
ghost use Rattle.elf_runs.specs.Code.{code_of, halfword_code, halfwords_of, placed, program_code, to_multiple};
ghost use Rattle.elf_runs.specs.Code.{word_code, words_of};

use crate::loaded_code::{Code, PlacedHalfwords, PlacedWords};
use elf::{Program, Segment};
use std::alloc::{AllocError, Global};

/// How many bytes behind an address the next multiple of a size is.
fn to_multiple(size: u32, address: u32) -> u32
    requires { 0 < size }
    ensures { result ≡ to_multiple size address }
{
    (size - address % size) % size
}

/// The bytes behind so many of them.
fn bytes_behind(bytes: &[u8], skipped: u32) -> &[u8]
    ensures { result.now ≡ drop skipped bytes.now }
{
    match bytes.split_at_checked(skipped as usize) {
        Some((_, rest)) => rest,
        None => &[],
    }
}

/// The words of bytes.
fn words_of(alloc: Global, bytes: &[u8]) -> Result<Vec<u32>, AllocError>
    ensures { IfOk result (λ words. words.items ≡ words_of bytes.now) }
{
    let mut words = Vec::with_capacity(alloc, bytes.len() / 4)?;
    'words: for k in 0..bytes.len() / 4 {
        let at = 4 * k;
        let word = u32::from_le_bytes([bytes[at], bytes[at + 1], bytes[at + 2], bytes[at + 3]]);
        words.push(word)?;
    }
    Ok(words)
}

/// The halfwords of bytes.
fn halfwords_of(alloc: Global, bytes: &[u8]) -> Result<Vec<u16>, AllocError>
    ensures { IfOk result (λ halfwords. halfwords.items ≡ halfwords_of bytes.now) }
{
    let mut halfwords = Vec::with_capacity(alloc, bytes.len() / 2)?;
    'halfwords: for k in 0..bytes.len() / 2 {
        let at = 2 * k;
        let halfword = u16::from_le_bytes([bytes[at], bytes[at + 1]]);
        halfwords.push(halfword)?;
    }
    Ok(halfwords)
}

/// The code of a segment, as words that the file has of it. Behind them no code stands.
fn word_code(alloc: Global, segment: &Segment<'_>) -> Result<Code, AllocError>
    requires { IsWithin segment.now }
    ensures { IfOk result (λ code. placed code ≡ word_code segment.now) }
{
    let skipped = to_multiple(4, segment.address());
    let bytes = bytes_behind(segment.bytes(), skipped);
    Ok(Code::Words(PlacedWords {
        begin: u64::from(segment.address()) + u64::from(skipped),
        words: words_of(alloc, bytes)?,
    }))
}

/// The same as halfwords.
fn halfword_code(alloc: Global, segment: &Segment<'_>) -> Result<Code, AllocError>
    requires { IsWithin segment.now }
    ensures { IfOk result (λ code. placed code ≡ halfword_code segment.now) }
{
    let skipped = to_multiple(2, segment.address());
    let bytes = bytes_behind(segment.bytes(), skipped);
    Ok(Code::Halfwords(PlacedHalfwords {
        begin: u64::from(segment.address()) + u64::from(skipped),
        halfwords: halfwords_of(alloc, bytes)?,
    }))
}

/// The code of a segment: halfwords where instructions of 16 bits may stand in it.
fn code_of(alloc: Global, segment: &Segment<'_>, compressed: bool) -> Result<Code, AllocError>
    requires { IsWithin segment.now }
    ensures { IfOk result (λ code. placed code ≡ code_of compressed segment.now) }
{
    if compressed {
        halfword_code(alloc, segment)
    } else {
        word_code(alloc, segment)
    }
}

/// The code of a program: that of each segment that may be executed. It is what the file has, whatever is set in memory
/// before a run, and it does not change.
pub fn program_code(alloc: Global, program: &Program<'_>) -> Result<Vec<Code>, AllocError>
    ensures code { IfOk result (λ code. map placed code.items ≡ program_code program.now) }
{
    let mut code = Vec::new(alloc);
    'each: for segment in program.segments() {
        if segment.access().executable {
            code.push(code_of(alloc, segment, program.compressed())?)?;
        }
    }
    Ok(code)
}
