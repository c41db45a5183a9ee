// What begins at an address of a program's code.

ghost use Rattle.std.specs.Prelude.{◌≡◌, ◌≤◌, Bool, map, IfOk};
ghost use Rattle.elf_reports.specs.Below.{addresses_of, alignment_by, code_among, code_by, halfword_at, halfwords_from};
ghost use Rattle.elf_reports.specs.Below.{lies_in, P1, placed, word_at};
ghost use Rattle.elf_reports.specs.Encodings.{encoding_at, encoding_in};

use elf::Program;
use elf_runs::{Code, PlacedHalfwords, PlacedWords, program_code};
use std::alloc::{AllocError, Global};

/// The bits at an address of code.
#[derive(Clone, Copy, Debug, PartialEq, Eq)]
pub enum Encoding {
    /// 32 of them.
    Word(u32),
    /// 16, where no instruction of 32 bits begins.
    Halfword(u16),
}

/// Whether code stands at an address.
fn has_code(code: &Code, address: u32) -> bool
    ensures { result ≡ lies_in address (addresses_of (placed code.now)) }
{
    let address = u64::from(address);
    match code {
        Code::Words(code) => {
            code.begin <= address && address < code.begin + 4 * code.words.len() as u64
        }
        Code::Halfwords(code) => {
            code.begin <= address && address < code.begin + 2 * code.halfwords.len() as u64
        }
    }
}

/// The word that begins at an address, where one does.
fn word_at(code: &PlacedWords, address: u64) -> Option<u32>
    ensures { result ≡ word_at (record { profile = P1; base = code.now.begin; words = code.now.words.items }) address }
{
    let behind = address.checked_sub(code.begin)?;
    if behind % 4 != 0 {
        return None;
    }
    code.words.get((behind / 4) as usize).copied()
}

/// The halfword that begins at an address, where one does.
fn halfword_at(code: &PlacedHalfwords, address: u64) -> Option<u16>
    ensures { result
        ≡ halfword_at (record { profile = P1; base = code.now.begin; halfwords = code.now.halfwords.items }) address }
{
    let behind = address.checked_sub(code.begin)?;
    if behind % 2 != 0 {
        return None;
    }
    code.halfwords.get((behind / 2) as usize).copied()
}

/// What begins at an address of halfwords.
fn encoding_of(code: &PlacedHalfwords, address: u64) -> Option<Encoding>
    requires { address ≤ 0xffff_ffff }
    ensures { result ≡ encoding_in (code_by P1 (halfwords_from code.now.begin code.now.halfwords.items)) address }
{
    let low = halfword_at(code, address)?;
    if low % 4 != 0b11 {
        return Some(Encoding::Halfword(low));
    }
    let high = halfword_at(code, address + 2)?;
    Some(Encoding::Word(u32::from(low) + 0x1_0000 * u32::from(high)))
}

/// What begins at an address of code.
fn encoding_in(code: &Code, address: u32) -> Option<Encoding>
    ensures { result ≡ encoding_in (code_by P1 (placed code.now)) address }
{
    match code {
        Code::Words(code) => Some(Encoding::Word(word_at(code, u64::from(address))?)),
        Code::Halfwords(code) => encoding_of(code, u64::from(address)),
    }
}

/// What begins at an address, of the first code that has it.
fn encoding_among(codes: &[Code], address: u32) -> Option<Encoding>
    ensures { (compressed : Bool)
        → result ≡ encoding_in (code_among (alignment_by compressed) P1 (map placed codes.now) address) address }
{
    'each: for code in codes {
        if has_code(code, address) {
            return encoding_in(code, address);
        }
    }
    None
}

/// What begins at an address of a program's code, if anything does: where instructions of 16 bits may stand in it, a
/// halfword or a word at any even address, else a word at a multiple of 4.
pub fn encoding_at(
    alloc: Global,
    program: &Program<'_>,
    address: u32,
) -> Result<Option<Encoding>, AllocError>
    ensures { IfOk result (λ encoding. encoding ≡ encoding_at program.now address) }
{
    let codes = program_code(alloc, program)?;
    Ok(encoding_among(codes.as_slice(), address))
}
