// What the names of a running body hold.

ghost use Rattle.std.specs.Prelude.{◌≡◌, if◌then◌else◌, is_some, OnOk, IfOk, IfErr};
ghost use Rattle.std.specs.Option.{option_map};
ghost use Rattle.source_eval.specs.Below.{element_held, empty, final_words, gives, with_element, with_some};
ghost use Rattle.source_eval.specs.Below.{with_value, word_held};
ghost use Rattle.source_eval.specs.Metering.{IsFault};
ghost use Rattle.source_eval.specs.Views.{held, value_of, word_of};
ghost use Rattle.source_eval.specs.declared.fault.EvalFault.TheVariants.{Memory};

use crate::EvalFault;
use crate::values::{Value, Word};
use indexmap::IndexMap;
use language::{Kind, Name, Place};
use std::alloc::Global;

/// The element of an array, at the place of `[`.
fn item(place: Place, value: &Value, index: u32) -> Result<Word, EvalFault>
    ensures ok { IfOk result (λ w. element_held place (Some (value_of value.now)) index ≡ gives (word_of w)) }
    ensures err { IfErr result (IsFault (element_held place (Some (value_of value.now)) index)) }
{
    match value {
        Value::Array(kind, words) => match words.get(index as usize) {
            Some(value) => Ok(Word {
                kind: *kind,
                value: *value,
            }),
            None => Err(EvalFault::NoMeaning(place)),
        },
        Value::Single(_) => Err(EvalFault::NoMeaning(place)),
    }
}

/// From here on an element of a value, where it is an array that has it, is this.
fn put(value: &mut Value, index: u32, word: Word)
    ensures { Some (value_of value.new) ≡ with_element (Some (value_of value.old)) index (word_of word) }
{
    if let Value::Array(_, words) = value {
        if let Some(place) = words.get_mut(index as usize) {
            *place = word.value;
        }
    }
}

/// Names and what they hold.
#[derive(Drop)]
pub struct Variables<'a> {
    values: IndexMap<&'a str, Value>,
}

impl<'a> Variables<'a> {
    /// No name holds anything.
    pub fn new(alloc: Global) -> Self
        ensures { held result ≡ empty }
    {
        Variables {
            values: IndexMap::new(alloc),
        }
    }

    /// From here on a name holds this.
    pub fn set(&mut self, name: &'a Name, value: Value) -> Result<(), EvalFault>
        ensures ok { OnOk result (held self.new ≡ with_value (held self.old) name.now (value_of value)) }
        ensures memory { IfErr result (λ fault. fault ≡ Memory) }
    {
        self.values.insert(name.as_str(), value)?;
        Ok(())
    }

    /// What a name holds.
    fn get(&self, name: &Name) -> Option<&Value>
        ensures { option_map (λ value. value_of value.now) result ≡ held self.now name.now }
    {
        self.values.get(name.as_str())
    }

    /// From here on a name holds this, unless it holds something already: of a name that stands twice the first counts.
    pub fn set_first(&mut self, name: &'a Name, value: Value) -> Result<(), EvalFault>
        ensures ok { OnOk result (held self.new
            ≡ (if is_some (held self.old name.now)
            then held self.old
            else with_value (held self.old) name.now (value_of value))) }
        ensures memory { IfErr result (λ fault. fault ≡ Memory) }
    {
        if self.get(name).is_some() {
            return Ok(());
        }
        self.set(name, value)
    }

    /// The word that a name holds.
    pub fn word(&self, name: &Name) -> Word
        ensures { word_of result ≡ word_held (held self.now name.now) }
    {
        match self.get(name) {
            Some(Value::Single(word)) => *word,
            Some(Value::Array(kind, _)) => Word {
                kind: *kind,
                value: 0,
            },
            None => Word {
                kind: Kind::Boolean,
                value: 0,
            },
        }
    }

    /// The element of the array that a name holds, at the place of `[`.
    pub fn element(&self, place: Place, name: &Name, index: u32) -> Result<Word, EvalFault>
        ensures ok { IfOk result (λ w. element_held place (held self.now name.now) index ≡ gives (word_of w)) }
        ensures err { IfErr result (IsFault (element_held place (held self.now name.now) index)) }
    {
        match self.get(name) {
            Some(value) => item(place, value, index),
            None => Err(EvalFault::NoMeaning(place)),
        }
    }

    /// From here on an element of the array that a name holds is this.
    pub fn set_element(&mut self, name: &Name, index: u32, word: Word)
        ensures { held self.new
            ≡ with_some (held self.old) name.now (with_element (held self.old name.now) index (word_of word)) }
    {
        if let Some(held) = self.values.get_mut(name.as_str()) {
            put(held, index, word);
        }
    }

    /// A copy of what a name holds.
    pub fn copy(&self, name: &Name) -> Result<Option<Value>, EvalFault>
        ensures ok { IfOk result (λ value. option_map value_of value ≡ held self.now name.now) }
        ensures memory { IfErr result (λ fault. fault ≡ Memory) }
    {
        match self.get(name) {
            Some(Value::Single(word)) => Ok(Some(Value::Single(*word))),
            Some(Value::Array(kind, words)) => Ok(Some(Value::Array(*kind, words.clone()?))),
            None => Ok(None),
        }
    }

    /// The words of the array that a name holds.
    pub fn words(&self, alloc: Global, name: &Name) -> Result<Vec<u32>, EvalFault>
        ensures ok { IfOk result (λ words. words.items ≡ final_words (held self.now name.now)) }
        ensures memory { IfErr result (λ fault. fault ≡ Memory) }
    {
        match self.get(name) {
            Some(Value::Array(_, words)) => Ok(words.clone()?),
            Some(Value::Single(word)) => Ok(vec![in alloc; word.value]?),
            None => Ok(Vec::new(alloc)),
        }
    }
}
