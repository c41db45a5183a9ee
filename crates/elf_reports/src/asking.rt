// What the words of a command ask of a run of a function.

ghost use Rattle.std.specs.Prelude.{◌≡◌, None, Some, map, IfOk, IfErr};
ghost use Rattle.std.specs.Option.{option_map};
ghost use Rattle.elf_reports.specs.Asking.{argument_in, argument_spelled, arguments_spelled, asked_argument};
ghost use Rattle.elf_reports.specs.Asking.{asked_setting, AsksFor, begins_with_digit, place_in, setting_in};
ghost use Rattle.elf_reports.specs.Asking.{setting_spelled, settings_spelled, spelling, texts};
ghost use Rattle.elf_reports.specs.Below.{first_unmet, IsTold};
ghost use Rattle.elf_runs.specs.declared.fault.StartFault.TheVariants.{Memory};

use elf::ElfRule;
use elf_runs::{Argument, Asked, Part, Secret, Setting, StartFault, Unmet};
use hex::FromHexError;
use language::arguments::word_of;
use std::alloc::{AllocError, Global};

/// The words of a command that say which function is to be run, and with what; and the size of its stack.
#[derive(Clone, Copy)]
pub struct AskedWords<'a> {
    pub function: &'a str,
    pub arguments: &'a [&'a str],
    pub secrets: &'a [&'a str],
    pub settings: &'a [&'a str],
    pub stack: u32,
}

/// Whether it begins with a decimal digit.
fn begins_with_digit(word: &str) -> bool
    ensures { result ≡ begins_with_digit word.now }
{
    match word.as_bytes() {
        [first, ..] => (b'0'..=b'9').contains(first),
        [] => false,
    }
}

/// A symbol, and how far behind it.
fn place_in(word: &str) -> (&str, u32)
    ensures symbol { result.0.now ≡ (place_in word.now).0 }
    ensures offset { result.1 ≡ (place_in word.now).1 }
{
    let Some((name, offset)) = word.split_once('+') else {
        return (word, 0);
    };
    match word_of(offset) {
        Some(offset) => (name, offset),
        None => (word, 0),
    }
}

/// What the word of an argument asks, if it asks anything.
fn argument_in(alloc: Global, word: &str) -> Result<Option<Argument>, AllocError>
    ensures { IfOk result (λ argument. option_map asked_argument argument ≡ argument_in word.now) }
{
    if word == "?" {
        return Ok(Some(Argument::Unknown));
    }
    if let Some(number) = word_of(word) {
        return Ok(Some(Argument::Number(number)));
    }
    if begins_with_digit(word) {
        return Ok(None);
    }
    let (symbol, offset) = place_in(word);
    let symbol = Vec::from_slice(alloc, symbol.as_bytes())?;
    Ok(Some(Argument::Address { symbol, offset }))
}

/// What the word of a setting asks, if it asks anything.
fn setting_in(alloc: Global, word: &str) -> Result<Option<Setting>, StartFault>
    ensures asked { IfOk result (λ setting. option_map asked_setting setting ≡ setting_in word.now) }
    ensures memory { IfErr result (λ fault. fault ≡ Memory) }
{
    let Some((object, value)) = word.split_once('=') else {
        return Ok(None);
    };
    let Some(digits) = value.strip_prefix("hex:") else {
        return Ok(None);
    };
    match hex::decode(alloc, digits) {
        Ok(bytes) => {
            let object = Vec::from_slice(alloc, object.as_bytes())?;
            Ok(Some(Setting { object, bytes }))
        }
        Err(FromHexError::OutOfMemory) => Err(StartFault::Memory),
        Err(
            FromHexError::InvalidHexCharacter { .. }
            | FromHexError::OddLength
            | FromHexError::InvalidStringLength,
        ) => Ok(None),
    }
}

/// What the word of this argument asks.
fn argument_at(alloc: Global, k: usize, word: &str) -> Result<Argument, StartFault>
    ensures met { IfOk result (λ _. first_unmet (argument_spelled k word.now) ≡ None) }
    ensures argument { IfOk result (λ argument. Some (asked_argument argument) ≡ argument_in word.now) }
    ensures fault { IfErr result (λ fault. IsTold fault (argument_spelled k word.now)) }
{
    match argument_in(alloc, word)? {
        Some(argument) => Ok(argument),
        None => Err(StartFault::Refused(Unmet {
            rule: ElfRule::Argument,
            part: Part::Argument(k),
        })),
    }
}

/// What the words of arguments ask.
fn arguments_in(alloc: Global, words: &[&str]) -> Result<Vec<Argument>, StartFault>
    ensures met { IfOk result (λ _. first_unmet (arguments_spelled (texts words.now)) ≡ None) }
    ensures arguments { IfOk result (λ arguments.
        map (λ one. Some (asked_argument one)) arguments.items ≡ map argument_in (texts words.now)) }
    ensures fault { IfErr result (λ fault. IsTold fault (arguments_spelled (texts words.now))) }
{
    let mut arguments = Vec::new(alloc);
    'each: for (k, word) in words.iter().enumerate() {
        arguments.push(argument_at(alloc, k, word)?)?;
    }
    Ok(arguments)
}

/// What the word of this setting asks.
fn setting_at(alloc: Global, k: usize, word: &str) -> Result<Setting, StartFault>
    ensures met { IfOk result (λ _. first_unmet (setting_spelled k word.now) ≡ None) }
    ensures setting { IfOk result (λ setting. Some (asked_setting setting) ≡ setting_in word.now) }
    ensures fault { IfErr result (λ fault. IsTold fault (setting_spelled k word.now)) }
{
    match setting_in(alloc, word)? {
        Some(setting) => Ok(setting),
        None => Err(StartFault::Refused(Unmet {
            rule: ElfRule::Argument,
            part: Part::Setting(k),
        })),
    }
}

/// What the words of settings ask.
fn settings_in(alloc: Global, words: &[&str]) -> Result<Vec<Setting>, StartFault>
    ensures met { IfOk result (λ _. first_unmet (settings_spelled (texts words.now)) ≡ None) }
    ensures settings { IfOk result (λ settings.
        map (λ one. Some (asked_setting one)) settings.items ≡ map setting_in (texts words.now)) }
    ensures fault { IfErr result (λ fault. IsTold fault (settings_spelled (texts words.now))) }
{
    let mut settings = Vec::new(alloc);
    'each: for (k, word) in words.iter().enumerate() {
        settings.push(setting_at(alloc, k, word)?)?;
    }
    Ok(settings)
}

/// The secrets of these names.
fn secrets_in(alloc: Global, words: &[&str]) -> Result<Vec<Secret>, AllocError>
    ensures { IfOk result (λ secrets. map (λ one. one.object.items) secrets.items ≡ texts words.now) }
{
    let mut secrets = Vec::new(alloc);
    'each: for word in words {
        let object = Vec::from_slice(alloc, word.as_bytes())?;
        secrets.push(Secret { object })?;
    }
    Ok(secrets)
}

/// What the words ask. An argument is a number, `?` for any word, or `NAME` or `NAME+N` for the address of a symbol and
/// so many bytes behind it; a secret the name of an object; a setting `NAME=hex:DIGITS`. Else it names the first
/// argument or setting that is none of these, by the rule `Argument`.
pub fn read_asked(alloc: Global, words: &AskedWords<'_>) -> Result<Asked, StartFault>
    ensures met { IfOk result (λ _. first_unmet (spelling words.now) ≡ None) }
    ensures asked { IfOk result (λ asked. AsksFor words.now asked) }
    ensures fault { IfErr result (λ fault. IsTold fault (spelling words.now)) }
{
    let arguments = arguments_in(alloc, words.arguments)?;
    let settings = settings_in(alloc, words.settings)?;
    let secrets = secrets_in(alloc, words.secrets)?;
    let function = Vec::from_slice(alloc, words.function.as_bytes())?;
    Ok(Asked {
        function,
        arguments,
        secrets,
        settings,
        stack: words.stack,
    })
}
