// The registers of the caller that a body writes, which its function keeps.

ghost use Rattle.std.specs.Prelude.{◌≡◌, ◌≤◌, length, IfOk};
ghost use Rattle.functions.specs.Below.{has_destination, is_written, kept_of, writes, written_of};

use crate::function_code::registers;
use crate::function_code::words::body;
use expression_code::image_fields::ImageFields;
use rv_code::Reg;
use std::alloc::{AllocError, Global};

/// The opcode of stores.
const STORE: u32 = 0b010_0011;

/// The opcode of branches.
const BRANCH: u32 = 0b110_0011;

/// Whether a word names a register that it writes: those of all formats do but of stores and branches.
fn has_destination(word: u32) -> bool
    ensures { result ≡ has_destination word }
{
    let opcode = word % 128;
    opcode != STORE && opcode != BRANCH
}

/// Whether a word writes a register.
fn writes(word: u32, register: Reg) -> bool
    ensures { result ≡ writes word register }
{
    has_destination(word) && word / 128 % 32 == u32::from(register.number())
}

/// Whether one of these words does.
fn is_written(words: &[u32], register: Reg) -> bool
    ensures { result ≡ is_written words.now register }
{
    for &word in words {
        if writes(word, register) {
            return true;
        }
    }
    false
}

/// Those of some registers that these words write.
fn written_of(alloc: Global, words: &[u32], registers: &[Reg]) -> Result<Vec<Reg>, AllocError>
    ensures written { IfOk result (λ written. written.items ≡ written_of words.now registers.now) }
    ensures few { IfOk result (λ written. length written.items ≤ length registers.now) }
{
    let mut written = Vec::new(alloc);
    for register in registers {
        if is_written(words, *register) {
            written.push(*register)?;
        }
    }
    Ok(written)
}

/// How many they are.
fn written_count(words: &[u32], registers: &[Reg]) -> u32
    requires { length registers.now ≤ 12 }
    ensures count { result ≡ length (written_of words.now registers.now) }
    ensures few { result ≤ length registers.now }
{
    let mut count = 0;
    for register in registers {
        if is_written(words, *register) {
            count += 1;
        }
    }
    count
}

/// Those of s0 to s11 that the body of an image writes.
pub fn kept(alloc: Global, image: &ImageFields) -> Result<Vec<Reg>, AllocError>
    ensures kept { IfOk result (λ kept. kept.items ≡ kept_of image.now) }
    ensures few { IfOk result (λ kept. length kept.items ≤ 12) }
{
    written_of(alloc, body(image), &registers::saved())
}

/// How many they are.
pub fn kept_count(image: &ImageFields) -> u32
    ensures count { result ≡ length (kept_of image.now) }
    ensures few { result ≤ 12 }
{
    written_count(body(image), &registers::saved())
}
