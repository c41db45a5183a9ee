// Whether the outcome that a vector asks for is the one that there is.

ghost use Rattle.std.specs.Prelude.{◌≡◌, ◌↔◌, ◌<◌, ℕ, List, Some, None, true, length, map, All, IfOk, IfErr};
ghost use Rattle.std.specs.Option.{option_map};
ghost use Rattle.std.specs.String.{string_bytes};
ghost use Rattle.image_reports.specs.Below.{IsWantOfMemory, numbers_of, rule_of_text, words_of};
ghost use Rattle.image_reports.specs.vectors.Spelled.{Spell, IsDifference, lists_of};

use crate::vectors::texts::{all_plain, difference};
use language::arguments::{argument, broken_rule_of_text};
use language::{Arg, Form, Kind, Label, Numbers, Outcome, Param, Refusal};
use std::alloc::{AllocError, Global};

/// The numbers of an outcome, list by list: what is returned, and then each `mut` array.
pub fn lists_of(alloc: Global, outcome: &Outcome) -> Result<Vec<Numbers>, AllocError>
    ensures { IfOk result (λ lists. lists.items ≡ lists_of outcome.now) }
{
    let mut lists = Vec::new(alloc);
    if let Some(word) = outcome.returned() {
        lists.push(Numbers::new(Vec::from_slice(alloc, &[word])?))?;
    }
    for numbers in outcome.arrays() {
        lists.push(Numbers::new(numbers.as_slice().to_vec(alloc)?))?;
    }
    Ok(lists)
}

/// The type of an array of as many words, which these are within.
fn type_of(words: &[u32]) -> Param
    requires { length words.now < 65536 }
    ensures { (text : List ℕ) → numbers_of text ≡ Some words.now → rule_of_text result text ≡ None }
{
    Param {
        kind: Kind::Uint32,
        label: Label::Public,
        form: Form::FixedArray,
        length: words.len() as u16,
    }
}

/// Whether an argument has these words.
fn has_words(arg: &Arg, words: &[u32]) -> bool
    ensures { (result ≡ true) ↔ (words_of arg.now ≡ words.now) }
{
    match arg {
        Arg::Word(word) => [*word].as_slice() == words,
        Arg::Array(numbers) => numbers.as_slice() == words,
    }
}

/// Whether a text spells these words.
fn spells(alloc: Global, text: &str, words: &[u32]) -> Result<bool, AllocError>
    requires { length words.now < 65536 }
    ensures { IfOk result (λ is. (is ≡ true) ↔ (numbers_of text.now ≡ Some words.now)) }
{
    let param = type_of(words);
    match broken_rule_of_text(&param, text) {
        Some(_) => Ok(false),
        None => {
            let arg = argument(alloc, &param, text)?;
            Ok(has_words(&arg, words))
        }
    }
}

/// Whether texts spell these lists of numbers.
fn spell(alloc: Global, texts: &[String], lists: &[Numbers]) -> Result<bool, AllocError>
    requires { All (λ list. length list < 65536) lists.now }
    ensures { IfOk result (λ are. (are ≡ true) ↔ Spell (map string_bytes texts.now) lists.now) }
{
    if texts.len() != lists.len() {
        return Ok(false);
    }
    for (index, text) in texts.iter().enumerate() {
        if !spells(alloc, text.as_str(), lists[index].as_slice())? {
            return Ok(false);
        }
    }
    Ok(true)
}

/// How lists of numbers differ from those that a vector asks for; `None` where they are those.
pub fn difference_of(
    alloc: Global,
    wanted: &[&str],
    lists: &[Numbers],
) -> Result<Option<String>, Refusal>
    requires { All (λ list. length list < 65536) lists.now }
    ensures differs { IfOk result (λ text.
        IsDifference (map (λ text. text.now) wanted.now) lists.now (option_map string_bytes text)) }
    ensures memory { IfErr result (λ refusal. IsWantOfMemory refusal.rule refusal.place) }
{
    let texts = all_plain(alloc, wanted)?;
    if spell(alloc, texts.as_slice(), lists)? {
        Ok(None)
    } else {
        Ok(Some(difference(alloc, wanted, lists)?))
    }
}
