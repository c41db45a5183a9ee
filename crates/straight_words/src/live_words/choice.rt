// Which words share a variable.

ghost use Rattle.std.specs.Prelude.{◌≡◌, ◌≤◌, length, slice_index, slice_set, IfOk};
ghost use Rattle.straight_words.specs.live_words.private.Choice.{chosen, conflicts_with, first_shared};
ghost use Rattle.straight_words.specs.live_words.private.Choice.{is_conflict, is_fixed, is_noted, is_some};
ghost use Rattle.straight_words.specs.live_words.private.Choice.{may_share, merged, none_placed, noted_where};
ghost use Rattle.straight_words.specs.live_words.private.Choice.{own_variables, placed, placed_all, placing_by};
ghost use Rattle.straight_words.specs.live_words.private.Choice.{variable_for, with_own, words_of};

use crate::live_words::live::{conflict_place, holder, mark};
use crate::same_words::{are_alike, at};
use branch_removal::{greatest_of, heaviest, take_greatest};
use inline::FlatVariable;
use std::alloc::{AllocError, Global};

/// Whether a word's conflict with another is noted, of so many words.
fn is_noted(conflicts: &[bool], width: u32, word: u32, other: u32) -> bool
    ensures { result ≡ is_noted conflicts.now width word other }
{
    match conflicts.get(conflict_place(width, word, other)) {
        Some(conflict) => *conflict,
        None => true,
    }
}

/// Whether two words are in conflict: that of one with the other is noted.
fn is_conflict(conflicts: &[bool], width: u32, word: u32, other: u32) -> bool
    ensures { result ≡ is_conflict conflicts.now width word other }
{
    is_noted(conflicts, width, word, other) || is_noted(conflicts, width, other, word)
}

/// Whether there is a word.
fn is_some(word: Option<u32>) -> bool
    ensures { result ≡ is_some word }
{
    match word {
        None => false,
        Some(_) => true,
    }
}

/// How many iterations are counted for the loops of a variable.
pub fn counted_for(iterations: &[u32], variable: usize) -> u32
    ensures { result ≡ slice_index iterations.now variable }
{
    iterations.get(variable).copied().unwrap_or(0)
}

/// What is chosen from: the variables, how many iterations are counted for the loop of each, what is live at the
/// beginning, and how many words may share, the first ones.
#[derive(Clone, Copy)]
pub struct WordCandidates<'w> {
    pub declared: &'w [FlatVariable],
    pub iterations: &'w [u32],
    pub starts: &'w [Option<u32>],
    pub width: u32,
}

impl<'w> WordCandidates<'w> {
    /// Whether a word keeps its variable.
    fn is_fixed(&self, conflicts: &[bool], word: u32) -> bool
        ensures { result ≡ is_fixed self.now.starts.now conflicts.now self.now.width word }
    {
        is_some(holder(self.starts, word as usize))
            || is_conflict(conflicts, self.width, word, word)
    }

    /// Whether a word may share this variable, in which another is placed, where as many iterations are counted for its
    /// loops.
    fn may_share(&self, conflicts: &[bool], word: u32, variable: u32) -> bool
        ensures { result ≡ may_share (words_of self.now) conflicts.now word variable }
    {
        are_alike(
            at(self.declared, word as usize),
            at(self.declared, variable as usize),
        ) && !is_conflict(conflicts, self.width, variable, word)
            && counted_for(self.iterations, word as usize)
                <= counted_for(self.iterations, variable as usize)
    }

    /// The first of these variables that a word may share, else its own.
    fn first_shared(&self, conflicts: &[bool], word: u32, variables: &[u32]) -> u32
        ensures { result ≡ first_shared (words_of self.now) conflicts.now word variables.now }
    {
        for variable in variables {
            if self.may_share(conflicts, word, *variable) {
                return *variable;
            }
        }
        word
    }

    /// The variable that a word gets, its own or one of these.
    fn variable_for(&self, conflicts: &[bool], variables: &[u32], word: u32) -> u32
        ensures { result ≡ variable_for (words_of self.now) conflicts.now variables.now word }
    {
        if self.is_fixed(conflicts, word) {
            word
        } else {
            self.first_shared(conflicts, word, variables)
        }
    }
}

/// Notes that a word is in conflict with another, where it is.
fn note_where(conflicts: &mut Vec<bool>, width: u32, word: u32, other: u32, both: bool)
    ensures { conflicts.new.items ≡ noted_where both conflicts.old.items width word other }
{
    if both {
        mark(conflicts, conflict_place(width, word, other));
    }
}

/// What a word is in conflict with is in conflict with this variable's word too.
fn merge(conflicts: &mut Vec<bool>, width: u32, variable: u32, word: u32)
    ensures { conflicts.new.items ≡ merged conflicts.old.items width variable word width 0 }
{
    for other in 0..width {
        let both = is_conflict(conflicts, width, word, other);
        note_where(conflicts, width, variable, other, both);
    }
}

/// The same, where the variable is not its own.
fn merge_other(conflicts: &mut Vec<bool>, width: u32, variable: u32, word: u32)
    ensures { conflicts.new.items ≡ conflicts_with conflicts.old.items width variable word }
{
    if variable != word {
        merge(conflicts, width, variable, word);
    }
}

/// A word that is placed in its own variable has it listed.
fn push_own(variables: &mut Vec<u32>, variable: u32, word: u32) -> Result<(), AllocError>
    ensures { IfOk result (λ done. variables.new.items ≡ with_own variables.old.items variable word) }
{
    if variable == word {
        variables.push(word)?;
    }
    Ok(())
}

/// A word lives in this variable.
fn set_variable(table: &mut Vec<u32>, word: u32, variable: u32)
    ensures { table.new.items ≡ slice_set table.old.items word variable }
{
    if let Some(entry) = table.get_mut(word as usize) {
        *entry = variable;
    }
}

/// So many words live in their own variables.
fn own_variables(alloc: Global, width: u32) -> Result<Vec<u32>, AllocError>
    ensures { IfOk result (λ table. table.items ≡ own_variables width 0) }
{
    let mut table = Vec::new(alloc);
    for word in 0..width {
        table.push(word)?;
    }
    Ok(table)
}

/// The words that are placed.
#[derive(Drop)]
pub struct Placed {
    /// Which words are in conflict: a row for each, and of the first word of a variable a row for all words of this.
    conflicts: Vec<bool>,
    /// The variables that words are placed in, in the order of placing.
    variables: Vec<u32>,
    /// For each word the variable that it lives in.
    table: Vec<u32>,
}

impl Placed {
    /// No word is placed of so many.
    fn nothing(alloc: Global, width: u32, conflicts: Vec<bool>) -> Result<Self, AllocError>
        ensures { IfOk result (λ placed. placing_by placed ≡ none_placed width conflicts.items) }
    {
        Ok(Placed {
            conflicts,
            variables: Vec::new(alloc),
            table: own_variables(alloc, width)?,
        })
    }

    /// Places a word.
    fn place(&mut self, words: WordCandidates<'_>, word: u32) -> Result<(), AllocError>
        ensures { IfOk result (λ done. placing_by self.new
            ≡ placed (words_of words.entry) (placing_by self.old) word) }
    {
        let variable = words.variable_for(&self.conflicts, &self.variables, word);
        merge_other(&mut self.conflicts, words.width, variable, word);
        push_own(&mut self.variables, variable, word)?;
        set_variable(&mut self.table, word, variable);
        Ok(())
    }

    /// Places the words that are used, by their weights, the greatest first.
    fn place_all(
        &mut self,
        words: WordCandidates<'_>,
        weights: &mut Vec<u64>,
    ) -> Result<(), AllocError>
        requires { length weights.old.items ≤ words.width }
        ensures { IfOk result (λ done. placing_by self.new
            ≡ placed_all (words_of words.entry) words.entry.width weights.old.items (placing_by self.old)) }
    {
        for _ in 0..words.width {
            if greatest_of(weights.as_slice()) == 0 {
                return Ok(());
            }
            let word = heaviest(weights.as_slice()) as u32;
            take_greatest(weights);
            self.place(words, word)?;
        }
        Ok(())
    }
}

/// The variables that words live in, by how much the words are used.
pub fn choose(
    alloc: Global,
    words: WordCandidates<'_>,
    mut weights: Vec<u64>,
    conflicts: Vec<bool>,
) -> Result<Vec<u32>, AllocError>
    ensures { IfOk result (λ table. table.items ≡ chosen (words_of words.entry) weights.items conflicts.items) }
{
    weights.truncate(words.width as usize);
    let mut placed = Placed::nothing(alloc, words.width, conflicts)?;
    placed.place_all(words, &mut weights)?;
    Ok(placed.table)
}
