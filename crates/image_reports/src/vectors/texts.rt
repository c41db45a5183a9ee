// The texts of a vector, and lists of numbers that are written as they are.

ghost use Rattle.std.specs.Prelude.{◌≡◌, ◌++◌, true, map, codes, IfOk, IfErr, OnOk};
ghost use Rattle.hex.specs.Hex.{encode_lower};
ghost use Rattle.std.specs.List.{flat_map};
ghost use Rattle.std.specs.String.{string_bytes};
ghost use Rattle.image_reports.specs.Below.{IsWantOfMemory};
ghost use Rattle.image_reports.specs.vectors.Texts.{numbers_text, are_bytes, plain, shown, all_shown, difference_text};

use hex::FromHexError;
use language::{Numbers, Refusal};
use std::alloc::{AllocError, Global};
use std::fmt::Write;

/// What stands before the digits of bytes.
const BYTES: &str = "hex:";

/// Puts numbers at the end, with commas between them.
fn push_numbers(text: &mut String, numbers: &[u32]) -> Result<(), AllocError>
    ensures { OnOk result (string_bytes text.new ≡ string_bytes text.old ++ numbers_text numbers.now) }
{
    if let Some((number, later)) = numbers.split_first() {
        write!(text, "{number}")?;
        for further in later {
            write!(text, ",{further}")?;
        }
    }
    Ok(())
}

/// Bytes as numbers with commas between them.
fn bytes_text(alloc: Global, bytes: &[u8]) -> Result<String, AllocError>
    ensures { IfOk result (λ text. string_bytes text ≡ numbers_text bytes.now) }
{
    let numbers: Vec<u32> = bytes.iter().map(|byte| u32::from(*byte)).collect(alloc)?;
    let mut text = String::new(alloc);
    push_numbers(&mut text, numbers.as_slice())?;
    Ok(text)
}

/// A text as an argument on the command line is written: `hex:00ff` stands for `0,255`.
fn plain(alloc: Global, text: &str) -> Result<String, Refusal>
    ensures plain { IfOk result (λ string. string_bytes string ≡ plain text.now) }
    ensures memory { IfErr result (λ refusal. IsWantOfMemory refusal.rule refusal.place) }
{
    let Some(digits) = text.strip_prefix(BYTES) else {
        return Ok(String::from_str(alloc, text)?);
    };
    match hex::decode(alloc, digits) {
        Ok(bytes) => Ok(bytes_text(alloc, bytes.as_slice())?),
        Err(FromHexError::OutOfMemory) => Err(Refusal::memory()),
        Err(
            FromHexError::InvalidHexCharacter { .. }
            | FromHexError::OddLength
            | FromHexError::InvalidStringLength,
        ) => Ok(String::from_str(alloc, text)?),
    }
}

/// Texts as arguments on the command line are written.
pub fn all_plain(alloc: Global, texts: &[&str]) -> Result<Vec<String>, Refusal>
    ensures plain { IfOk result (λ strings.
        map string_bytes strings.items ≡ map plain (map (λ text. text.now) texts.now)) }
    ensures memory { IfErr result (λ refusal. IsWantOfMemory refusal.rule refusal.place) }
{
    let mut strings = Vec::new(alloc);
    for text in texts {
        strings.push(plain(alloc, text)?)?;
    }
    Ok(strings)
}

/// Whether each number is a byte.
fn are_bytes(numbers: &[u32]) -> bool
    ensures { result ≡ are_bytes numbers.now }
{
    numbers.iter().all(|number| *number < 256)
}

/// Puts numbers at the end, each of which is a byte, as their digits.
fn push_bytes(alloc: Global, text: &mut String, numbers: &[u32]) -> Result<(), AllocError>
    requires { are_bytes numbers.now ≡ true }
    ensures { OnOk result (string_bytes text.new ≡ string_bytes text.old ++ codes "hex:" ++ encode_lower numbers.now) }
{
    let bytes: Vec<u8> = numbers
        .iter()
        .map(|number| (*number % 256) as u8)
        .collect(alloc)?;
    let digits = hex::encode(alloc, bytes.as_slice())?;
    text.push_str(BYTES)?;
    text.push_str(digits.as_str())
}

/// Puts numbers at the end, written as a text is: as bytes where it is, and each of them is a byte.
fn push_shown(
    alloc: Global,
    text: &mut String,
    wanted: &str,
    numbers: &[u32],
) -> Result<(), AllocError>
    ensures { OnOk result (string_bytes text.new ≡ string_bytes text.old ++ shown wanted.now numbers.now) }
{
    if wanted.starts_with(BYTES) && are_bytes(numbers) {
        push_bytes(alloc, text, numbers)
    } else {
        push_numbers(text, numbers)
    }
}

/// Puts lists of numbers at the end, each with a blank before it, written as texts are.
fn push_all_shown(
    alloc: Global,
    text: &mut String,
    wanted: &[&str],
    lists: &[Numbers],
) -> Result<(), AllocError>
    ensures { OnOk result (string_bytes text.new
        ≡ string_bytes text.old ++ all_shown (map (λ text. text.now) wanted.now) lists.now) }
{
    for (index, numbers) in lists.iter().enumerate() {
        text.push_str(" ")?;
        match wanted.get(index) {
            Some(like) => push_shown(alloc, text, like, numbers.as_slice())?,
            None => push_numbers(text, numbers.as_slice())?,
        }
    }
    Ok(())
}

/// Puts texts at the end, each with a blank before it.
fn push_texts(text: &mut String, texts: &[&str]) -> Result<(), AllocError>
    ensures { OnOk result (string_bytes text.new
        ≡ string_bytes text.old ++ flat_map (λ text. codes " " ++ text) (map (λ text. text.now) texts.now)) }
{
    for further in texts {
        text.push_str(" ")?;
        text.push_str(further)?;
    }
    Ok(())
}

/// That lists of numbers are not those which texts ask for.
pub fn difference(alloc: Global, wanted: &[&str], lists: &[Numbers]) -> Result<String, AllocError>
    ensures { IfOk result (λ text. string_bytes text ≡ difference_text (map (λ text. text.now) wanted.now) lists.now) }
{
    let mut text = String::from_str(alloc, "expected")?;
    push_texts(&mut text, wanted)?;
    text.push_str(", got")?;
    push_all_shown(alloc, &mut text, wanted, lists)?;
    Ok(text)
}
