// What is known of the variables.

ghost use Rattle.std.specs.Prelude.{◌≡◌, [], None, filter, replicate, slice_set, IfOk, OnOk};
ghost use Rattle.optimisation.specs.Below.{straight_block, straight_tree};
ghost use Rattle.optimisation.specs.constants.private.Known.{all_short, forgotten, forgotten_all, in_loop, is_apart};
ghost use Rattle.optimisation.specs.constants.private.Known.{known, latest, short, source_in, with_copy, with_word};
ghost use Rattle.optimisation.specs.constants.private.Known.{word_at, words_of};

use branch_removal::StraightStatement;
use language::Kind;
use std::alloc::{AllocError, Global};

/// A word that is known.
#[derive(Clone, Copy)]
pub struct Constant {
    pub value: u32,
    pub kind: Kind,
}

/// What one instruction holds as a number is below this.
const SHORT_END: u32 = 2048;

/// A word that is known, where one instruction holds it as a number.
fn short(word: Option<Constant>) -> Option<Constant>
    ensures { result ≡ short word }
{
    let constant = word?;
    if constant.value < SHORT_END {
        Some(constant)
    } else {
        None
    }
}

/// A word that has the value of another one.
#[derive(Clone, Copy)]
pub struct WordCopy {
    pub variable: u32,
    pub source: u32,
}

/// At most so many copies are known.
const MOST_COPIES: usize = 16;

/// What is known of variables: their words, at their numbers, and the last that have the value of another one, the
/// oldest first.
#[derive(Drop)]
pub struct KnownWords {
    pub words: Vec<Option<Constant>>,
    pub copies: Vec<WordCopy>,
}

impl KnownWords {
    /// Nothing is known of so many variables.
    pub fn nothing(alloc: Global, variables: usize) -> Result<Self, AllocError>
        ensures { IfOk result (λ known. words_of known ≡ record { numbers = replicate variables None; copies = [] }) }
    {
        Ok(KnownWords {
            words: vec![in alloc; None; variables]?,
            copies: Vec::new(alloc),
        })
    }

    /// The word of a variable, where it is known.
    pub fn of(&self, variable: u32) -> Option<Constant>
        ensures { result ≡ known (words_of self.now) variable }
    {
        match self.words.get(variable as usize) {
            Some(word) => *word,
            None => None,
        }
    }

    /// The variable whose value this one has: itself, where no other is known.
    pub fn source_of(&self, variable: u32) -> u32
        ensures { result ≡ source_in self.now.copies.items variable }
    {
        for copy in self.copies.iter() {
            if copy.variable == variable {
                return copy.source;
            }
        }
        variable
    }

    /// This is the word of a variable, or it is not known.
    fn note_word(&mut self, variable: u32, word: Option<Constant>)
        ensures words { self.new.words.items ≡ slice_set self.old.words.items variable word }
        ensures copies { self.new.copies ≡ self.old.copies }
    {
        if let Some(known) = self.words.get_mut(variable as usize) {
            *known = word;
        }
    }

    /// A variable is no copy of another, nor is one of it.
    fn forget_copies(&mut self, variable: u32)
        ensures words { self.new.words ≡ self.old.words }
        ensures copies { self.new.copies.items ≡ filter (is_apart variable) self.old.copies.items }
    {
        self.copies.retain(|copy| !(copy.variable == variable || copy.source == variable));
    }

    /// From here on this is the word of a variable, or it is not known; and the variable is no copy, nor is one of it.
    pub fn note(&mut self, variable: u32, word: Option<Constant>)
        ensures { words_of self.new ≡ with_word (words_of self.old) variable word }
    {
        self.note_word(variable, word);
        self.forget_copies(variable);
    }

    /// Where as many copies are known as may be, the oldest goes.
    fn make_room(&mut self)
        ensures words { self.new.words ≡ self.old.words }
        ensures copies { self.new.copies.items ≡ latest self.old.copies.items }
    {
        if self.copies.len() >= MOST_COPIES {
            self.copies.remove(0);
        }
    }

    /// From here on a variable has the value of another one.
    pub fn note_copy(&mut self, copy: WordCopy) -> Result<(), AllocError>
        ensures { OnOk result (words_of self.new ≡ with_copy (words_of self.old) copy) }
    {
        self.make_room();
        self.copies.push(copy)?;
        Ok(())
    }

    /// Of what a statement sets nothing is known.
    #[cycle(forgetting)]
    fn forget(&mut self, statement: &StraightStatement)
        ensures { words_of self.new ≡ forgotten (words_of self.old) (straight_tree statement.now) }
    {
        match statement {
            StraightStatement::Set(_, variable, _)
            | StraightStatement::Array(variable, _, _)
            | StraightStatement::Put(_, _, variable, _, _, _) => self.note(*variable, None),
            StraightStatement::Take(_, _, _) => {}
            StraightStatement::Branch(_, accepted, otherwise) => {
                self.forget_all(accepted);
                self.forget_all(otherwise);
            }
            StraightStatement::Repeat(counter, _, _, body) => {
                self.note(*counter, None);
                self.forget_all(body);
            }
        }
    }

    /// Of what some statements set nothing is known.
    #[cycle(forgetting)]
    pub fn forget_all(&mut self, body: &[StraightStatement])
        ensures { words_of self.new ≡ forgotten_all (words_of self.old) (straight_block body.now) }
    {
        for statement in body {
            self.forget(statement);
        }
    }

    /// A word stays known where one instruction holds it as a number.
    fn shorten(&mut self, number: usize)
        ensures words { self.new.words.items
            ≡ slice_set self.old.words.items number (short (word_at self.old.words.items number)) }
        ensures copies { self.new.copies ≡ self.old.copies }
    {
        if let Some(word) = self.words.get_mut(number) {
            *word = short(*word);
        }
    }

    /// So do all words.
    fn keep_short(&mut self)
        ensures { words_of self.new ≡ all_short (words_of self.old) }
    {
        for number in 0..self.words.len() {
            self.shorten(number);
        }
    }

    /// From here on in a loop, in each of its iterations: of its counter and of what its body sets nothing is known.
    /// Long numbers are forgotten too: each iteration would make them anew by two instructions, where their variables
    /// are read by one at most.
    pub fn begin_loop(&mut self, counter: u32, body: &[StraightStatement])
        ensures { words_of self.new ≡ in_loop (words_of self.old) counter (straight_block body.now) }
    {
        self.keep_short();
        self.note(counter, None);
        self.forget_all(body);
    }
}
