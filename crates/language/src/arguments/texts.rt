ghost use Rattle.std.specs.Prelude.{◌≡◌, ◌↔◌, map, nat_le, IfOk, OnOk};
ghost use Rattle.std.specs.List.{filter_map, list_all};
ghost use Rattle.std.specs.Option.{option_map};
ghost use Rattle.language.specs.arguments.Texts.{count_of, fault_of_texts, numbers_of, parts_of, rule_of_text, word_of};
ghost use Rattle.language.specs.arguments.Faults.{fault_by};
ghost use Rattle.language.specs.arguments.Within.{AreWithin, IsWithin, words_of};
ghost use Rattle.language.specs.declared.arguments.texts.ReadError.TheVariants.{Memory};

use crate::arguments::bounds::{first_fault_by, greatest};
use crate::arguments::numerals::number;
use crate::arguments::{ArgumentFault, ArgumentRule};
use crate::{Arg, Args, Form, Numbers, Param, Refusal};
use std::alloc::{AllocError, AllocFailed, Global};
use std::fmt;

/// Why texts give no arguments.
#[derive(Clone, Copy, Debug, PartialEq, Eq)]
pub enum ReadError {
    /// The first fault of the texts.
    Argument(ArgumentFault),
    /// A growth was refused.
    Memory,
}

impl From<AllocError> for ReadError {
    ghost from_gives = { λ _ error. error ≡ Memory };

    fn from(_: AllocError) -> Self {
        ReadError::Memory
    }
}

impl<T: Drop> From<AllocFailed<T>> for ReadError {
    ghost from_gives = { λ _ error. error ≡ Memory };

    fn from(_: AllocFailed<T>) -> Self {
        ReadError::Memory
    }
}

/// `A3 at argument 0: value outside type`, or `M1: memory`.
impl fmt::Display for ReadError {
    ghost use Rattle.std.specs.Prelude.{Some};
    ghost use Rattle.language.specs.arguments.Text.{read_error_text};

    ghost output = { λ error. Some (read_error_text error) };

    fn fmt<W: fmt::Write>(&self, f: &mut fmt::Formatter<W>) -> fmt::Result {
        match self {
            ReadError::Argument(fault) => write!(f, "{fault}"),
            ReadError::Memory => write!(f, "{}", Refusal::memory()),
        }
    }
}

/// How many numbers a parameter takes.
fn number_count(param: &Param) -> usize
    ensures { result ≡ count_of param.now.form param.now.length }
{
    match param.form {
        Form::SingleWord => 1,
        Form::FixedArray | Form::MutableArray => usize::from(param.length),
    }
}

/// Whether the numbers that a text spells are all at most this. None where a part spells no number.
fn all_at_most(text: &str, most: u32) -> Option<bool>
    ensures { result ≡ option_map (list_all (λ number. nat_le number most)) (numbers_of text.now) }
{
    text.split(',').fold(Some(true), |all, part| {
        let all = all?;
        let number = number(part)?;
        Some(all && number <= u64::from(most))
    })
}

/// The rule that a text breaks at its parameter.
pub fn broken_rule(param: &Param, text: &str) -> Option<ArgumentRule>
    ensures { result ≡ rule_of_text param.now text.now }
{
    if text.split(',').count() != number_count(param) {
        return Some(ArgumentRule::Shape);
    }
    match all_at_most(text, greatest(param.kind)) {
        Some(true) => None,
        Some(false) => Some(ArgumentRule::Value),
        None => Some(ArgumentRule::Shape),
    }
}

/// The first fault of texts.
fn first_fault(params: &[Param], texts: &[&str]) -> Option<ArgumentFault>
    ensures { result ≡ fault_by (λ param text. rule_of_text param text.now) params.now texts.now }
{
    first_fault_by(params, texts, |param: &Param, text: &&str| {
        broken_rule(param, text)
    })
}

/// The number that a text spells, decimal or behind `0x` hexadecimal, where it fits a word.
pub fn word_of(text: &str) -> Option<u32>
    ensures { result ≡ word_of text.now }
{
    match number(text) {
        Some(value) if value <= u64::from(u32::MAX) => Some(value as u32),
        _ => None,
    }
}

/// The words that a text spells between its commas, those that are words.
fn words(alloc: Global, text: &str) -> Result<Vec<u32>, AllocError>
    ensures { IfOk result (λ words. words.items ≡ filter_map word_of (parts_of text.now)) }
{
    text.split(',').filter_map(word_of).collect(alloc)
}

/// The argument that a text without fault spells.
pub fn argument(alloc: Global, param: &Param, text: &str) -> Result<Arg, AllocError>
    requires { rule_of_text param.now text.now ≡ None }
    ensures spelled { IfOk result (λ arg. Some (words_of arg) ≡ numbers_of text.now) }
    ensures within { IfOk result (IsWithin param.now) }
{
    let words = words(alloc, text)?;
    match param.form {
        Form::SingleWord => Ok(Arg::Word(words[0])),
        Form::FixedArray | Form::MutableArray => Ok(Arg::Array(Numbers::new(words))),
    }
}

/// The arguments that texts spell, else the first fault: their count before all else, then the
/// leftmost faulty text, its shape before its values. Memory is asked for only once the texts have
/// no fault.
pub fn read(alloc: Global, params: &[Param], texts: &[&str]) -> Result<Args, ReadError>
    ensures found { IfOk result (λ args.
        map (λ arg. Some (words_of arg)) args ≡ map (λ text. numbers_of text.now) texts.now) }
    ensures within { IfOk result (AreWithin params.now) }
    ensures fault { (fault : ArgumentFault)
        → (result ≡ Err (ReadError.Argument fault))
        ↔ (fault_of_texts params.now (map (λ text. text.now) texts.now) ≡ Some fault) }
    ensures only { OnOk result (fault_of_texts params.now (map (λ text. text.now) texts.now) ≡ None) }
{
    if let Some(fault) = first_fault(params, texts) {
        return Err(ReadError::Argument(fault));
    }
    let mut args = Vec::new(alloc);
    for (index, param) in params.iter().enumerate() {
        args.push(argument(alloc, param, texts[index])?)?;
    }
    Ok(Args::new(args))
}
