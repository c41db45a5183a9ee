// Arrays that become words.

ghost use Rattle.std.specs.Prelude.{◌≡◌, ◌≤◌, [], length, IfOk};
ghost use Rattle.straight_words.specs.Below.{term_tree};
ghost use Rattle.straight_words.specs.element_words.private.Parts.{candidate, candidates, known_index, part_of, whole};
ghost use Rattle.straight_words.specs.element_words.private.Parts.{word_of};

use inline::{FlatVariable, Term};
use language::WordType;
use std::alloc::{AllocError, Global};

/// How many elements an array that becomes words has at most.
pub const MOST_ELEMENTS_SPLIT: u32 = 256;

/// An array that becomes words: the number of the first, how many there are, and their type.
#[derive(Clone, Copy)]
pub struct SplitArray {
    pub base: u16,
    pub size: u16,
    pub word: WordType,
}

/// For each variable, at its number, what becomes of it where it is an array that becomes words.
#[derive(Drop)]
pub struct SplitArrays {
    pub arrays: Vec<Option<SplitArray>>,
}

/// The number of an index, where it is one below the size.
fn known_index(size: u16, index: &Term) -> Option<u32>
    ensures { result ≡ known_index size (term_tree index.now) }
{
    match index {
        Term::Number(value, _) => {
            if *value < u32::from(size) {
                Some(*value)
            } else {
                None
            }
        }
        _ => None,
    }
}

/// What becomes of a variable that is no parameter, where it is a short array.
fn candidate(variable: &FlatVariable) -> Option<SplitArray>
    ensures { result ≡ candidate variable.now }
{
    match variable.elements {
        None => None,
        Some(size) => {
            if size <= MOST_ELEMENTS_SPLIT {
                Some(SplitArray {
                    base: 0,
                    size: size as u16,
                    word: variable.word,
                })
            } else {
                None
            }
        }
    }
}

impl SplitArrays {
    /// None of the variables becomes words.
    pub fn none(alloc: Global) -> Self
        ensures { result.arrays.items ≡ [] }
    {
        SplitArrays {
            arrays: Vec::new(alloc),
        }
    }

    /// The short arrays behind so many parameters.
    pub fn candidates(
        alloc: Global,
        parameters: usize,
        declared: &[FlatVariable],
    ) -> Result<Self, AllocError>
        requires { parameters ≤ length declared.now }
        ensures { IfOk result (λ parts. parts.arrays.items ≡ candidates parameters declared.now) }
    {
        let mut arrays = vec![in alloc; None; parameters]?;
        for variable in &declared[parameters..] {
            arrays.push(candidate(variable))?;
        }
        Ok(SplitArrays { arrays })
    }

    /// What becomes of a variable.
    pub fn of(&self, variable: u32) -> Option<SplitArray>
        ensures { result ≡ part_of self.now.arrays.items variable }
    {
        match self.arrays.get(variable as usize) {
            Some(part) => *part,
            None => None,
        }
    }

    /// The word of an element, where the array becomes words and the index is known.
    pub fn word(&self, array: u32, index: &Term) -> Option<u32>
        ensures { result ≡ word_of self.now.arrays.items array (term_tree index.now) }
    {
        let part = self.of(array)?;
        let index = known_index(part.size, index)?;
        Some(u32::from(part.base) + index)
    }

    /// An array stays whole.
    pub fn leave_whole(&mut self, array: u32)
        ensures { self.new.arrays.items ≡ whole self.old.arrays.items array }
    {
        if let Some(part) = self.arrays.get_mut(array as usize) {
            *part = None;
        }
    }
}
