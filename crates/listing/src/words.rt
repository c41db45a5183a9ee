// Code as text, a line for each word.

ghost use Rattle.std.specs.Prelude.{◌≡◌, ℕ, ◌+◌, ◌*◌, ◌^◌, ◌<◌, ◌++◌, List, length, IfOk, OnOk};
ghost use Rattle.std.specs.Option.{option_map};
ghost use Rattle.std.specs.String.{string_bytes};
ghost use Rattle.listing.specs.Below.{code_at, code_base, word_at};
ghost use Rattle.listing.specs.Code.{IsTextOf, IsLineAt, IsLineOf, ListsCode, word_line};

use crate::lines::head_of_word;
use hepurita::CODE_BASE;
use image::Image;
use rv_code::decode;
use std::alloc::{AllocError, Global};

/// The text of a word's instruction, or `illegal`.
fn text_of(alloc: Global, word: u32) -> Result<String, AllocError>
    ensures { IfOk result (λ text. IsTextOf word (string_bytes text)) }
{
    match decode(word) {
        Some(instruction) => format!(in alloc; "{instruction}"),
        None => String::from_str(alloc, "illegal"),
    }
}

/// Puts the line of a word at the end.
fn push_line(alloc: Global, lines: &mut Vec<u8>, address: u32, word: u32) -> Result<(), AllocError>
    ensures { OnOk result ((text : List ℕ)
        × IsTextOf word text
        × (lines.new.items ≡ lines.old.items ++ word_line address word text)) }
{
    let text = text_of(alloc, word)?;
    lines.extend_from_slice(head_of_word(address, word).as_slice())?;
    lines.extend_from_slice(text.as_bytes())?;
    lines.extend_from_slice(b"\n")
}

/// The listing of words that stand one after another from an address on.
fn list_words(alloc: Global, base: u32, words: &[u32]) -> Result<Vec<u8>, AllocError>
    requires { base + 4 * length words.now < 2 ^ 32 }
    ensures { IfOk result (λ lines. ListsCode base words.now lines.items) }
{
    let mut lines = Vec::new(alloc);
    let mut address = base;
    for &word in words {
        push_line(alloc, &mut lines, address, word)?;
        address += 4;
    }
    Ok(lines)
}

/// The word of an image that begins at an address.
fn word_of(image: &Image, address: u32) -> Option<u32>
    ensures { result ≡ word_at (code_at code_base image.now) address }
{
    let offset = address.checked_sub(CODE_BASE)?;
    if offset % 4 == 0 {
        image.words().get((offset / 4) as usize).copied()
    } else {
        None
    }
}

/// The line of a word that stands at an address, as in a listing of code.
pub fn word_line(alloc: Global, address: u32, word: u32) -> Result<Vec<u8>, AllocError>
    ensures { IfOk result (λ line. IsLineOf address (Some word) (Some line.items)) }
{
    let mut line = Vec::new(alloc);
    push_line(alloc, &mut line, address, word)?;
    Ok(line)
}

/// The line of the word of an image that begins at an address, as in its listing. `None` where no word does.
pub fn line_at(alloc: Global, image: &Image, address: u32) -> Result<Option<Vec<u8>>, AllocError>
    ensures { IfOk result (λ line.
        IsLineAt (code_at code_base image.now) address (option_map (λ line. line.items) line)) }
{
    match word_of(image, address) {
        Some(word) => Ok(Some(word_line(alloc, address, word)?)),
        None => Ok(None),
    }
}

/// The words of an image with their text: a line for each, with its address.
pub fn list(alloc: Global, image: &Image) -> Result<Vec<u8>, AllocError>
    ensures { IfOk result (λ lines. ListsCode code_base image.now.words lines.items) }
{
    list_words(alloc, CODE_BASE, image.words())
}
