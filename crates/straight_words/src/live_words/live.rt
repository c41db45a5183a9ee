// Which words are live, seen backwards from the end of the code.

ghost use Rattle.std.specs.Prelude.{◌≡◌, ◌*◌, ◌+◌, ◌<◌, ◌^◌, None, false, slice_get, slice_set, true, IfOk};
ghost use Rattle.straight_words.specs.live_words.private.Held as held;
ghost use Rattle.straight_words.specs.live_words.private.Held.{Held, anew, counting, covers, fitting, freed, held_by};
ghost use Rattle.straight_words.specs.live_words.private.Held.{hold_own, holding, is_by, is_done, is_free, is_free_for};
ghost use Rattle.straight_words.specs.live_words.private.Held.{is_live, joined, living, living_where, noted, noted_all};
ghost use Rattle.straight_words.specs.live_words.private.Held.{noted_own, setting};
ghost use Rattle.straight_words.specs.live_words.private.Sharing.{closed};
ghost use Rattle.straight_words.specs.live_words.private.Whole.{none_live};

use std::alloc::{AllocError, Global};
use std::mem;

/// What is live, and which variable holds it.
#[derive(Drop)]
pub struct Live {
    /// For each variable the live word that it holds, where it holds one.
    pub holders: Vec<Option<u32>>,
    /// No variable has to hold two words at once.
    pub fits: bool,
    /// Which of the first words were set while which others of them were live: a row for each.
    pub conflicts: Vec<bool>,
    /// How many words have such a row.
    pub width: u32,
}

/// The variable that a word lives in.
pub fn share(table: &[u32], word: u32) -> u32
    ensures { result ≡ held.share table.now word }
{
    match table.get(word as usize) {
        Some(variable) => *variable,
        None => word,
    }
}

/// Whether a variable with this holder, where there is such a variable, holds no other word.
fn is_free_for(holder: Option<Option<u32>>, word: u32) -> bool
    ensures { result ≡ is_free_for holder word }
{
    match holder {
        None => false,
        Some(None) => true,
        Some(Some(other)) => other == word,
    }
}

/// Whether this is the word.
fn is_by(holder: Option<u32>, word: u32) -> bool
    ensures { result ≡ is_by holder word }
{
    match holder {
        None => false,
        Some(other) => other == word,
    }
}

/// The word that a variable holds.
pub fn holder(holders: &[Option<u32>], variable: usize) -> Option<u32>
    ensures { result ≡ held.holder holders.now variable }
{
    match holders.get(variable) {
        Some(holder) => *holder,
        None => None,
    }
}

/// Whether a word was set already.
fn is_done(done: &[bool], word: u32) -> bool
    ensures { result ≡ is_done done.now word }
{
    match done.get(word as usize) {
        Some(done) => *done,
        None => false,
    }
}

/// Where the conflict of two words stands, of so many.
pub fn conflict_place(width: u32, word: u32, other: u32) -> usize
    ensures { result ≡ word * width + other }
{
    word as usize * width as usize + other as usize
}

/// Notes a conflict.
pub fn mark(conflicts: &mut Vec<bool>, place: usize)
    ensures { conflicts.new.items ≡ slice_set conflicts.old.items place true }
{
    if let Some(conflict) = conflicts.get_mut(place) {
        *conflict = true;
    }
}

/// Notes a word's conflicts with what these variables hold.
fn note_all(conflicts: &mut Vec<bool>, width: u32, word: u32, holders: &[Option<u32>])
    ensures { conflicts.new.items ≡ noted_all conflicts.old.items width word holders.now }
{
    for holder in holders {
        if let Some(other) = *holder {
            mark(conflicts, conflict_place(width, word, other));
        }
    }
}

/// Whether these variables, the first of them with this number, hold words that they hold here too.
fn covers(these: &[Option<u32>], holders: &[Option<u32>]) -> bool
    ensures { result ≡ covers these.now 0 holders.now }
{
    for (variable, word) in holders.iter().enumerate() {
        if let Some(word) = *word {
            if !is_by(holder(these, variable), word) {
                return false;
            }
        }
    }
    true
}

/// Whether each variable that holds a word holds its own.
pub fn hold_own(holders: &[Option<u32>]) -> bool
    ensures { result ≡ hold_own 0 holders.now }
{
    for (variable, word) in holders.iter().enumerate() {
        if let Some(word) = *word {
            if word as usize != variable {
                return false;
            }
        }
    }
    true
}

impl Live {
    /// Nothing is live of so many variables. Conflicts are noted of so many words.
    pub fn nothing(alloc: Global, variables: usize, width: u32) -> Result<Self, AllocError>
        ensures { IfOk result (λ live. held_by live ≡ none_live variables width) }
    {
        Ok(Live {
            holders: vec![in alloc; None; variables]?,
            fits: true,
            conflicts: vec![in alloc; false; width as usize * width as usize]?,
            width,
        })
    }

    /// Sharing has to fit in this respect too.
    pub fn require(&mut self, fine: bool)
        ensures { held_by self.new ≡ fitting (held_by self.old) fine }
    {
        self.fits = self.fits && fine;
    }

    /// Whether a word is live.
    pub fn is_live(&self, table: &[u32], word: u32) -> bool
        ensures { result ≡ is_live table.now (held_by self.now) word }
    {
        is_by(holder(&self.holders, share(table, word) as usize), word)
    }

    /// Whether a variable holds no other word.
    fn is_free(&self, variable: usize, word: u32) -> bool
        ensures { result ≡ is_free self.now.holders.items variable word }
    {
        is_free_for(self.holders.get(variable).copied(), word)
    }

    /// A variable holds a word, which is live.
    fn hold(&mut self, variable: usize, word: u32)
        ensures { held_by self.new ≡ holding (held_by self.old) variable word }
    {
        let fine = self.is_free(variable, word);
        self.require(fine);
        if let Some(holder) = self.holders.get_mut(variable) {
            *holder = Some(word);
        }
    }

    /// A word is live.
    pub fn live(&mut self, table: &[u32], word: u32)
        ensures { held_by self.new ≡ living table.now (held_by self.old) word }
    {
        self.hold(share(table, word) as usize, word);
    }

    /// A word is live, where it was not set already.
    pub fn live_where(&mut self, table: &[u32], done: &[bool], word: u32)
        ensures { held_by self.new ≡ living_where table.now done.now (held_by self.old) word }
    {
        if !is_done(done, word) {
            self.live(table, word);
        }
    }

    /// A word is not live.
    fn free(&mut self, table: &[u32], word: u32)
        ensures { held_by self.new ≡ freed table.now (held_by self.old) word }
    {
        let variable = share(table, word) as usize;
        let fine = self.is_free(variable, word);
        self.require(fine);
        if let Some(holder) = self.holders.get_mut(variable) {
            *holder = None;
        }
    }

    /// A word is in conflict with what the first variables hold.
    fn note(&mut self, word: u32)
        ensures { held_by self.new ≡ noted (held_by self.old) word }
    {
        let first = self.holders.len().min(self.width as usize);
        note_all(
            &mut self.conflicts,
            self.width,
            word,
            &self.holders.as_slice()[..first],
        );
    }

    /// A word has to keep its own variable.
    fn note_own(&mut self, word: u32)
        ensures { held_by self.new ≡ noted_own (held_by self.old) word }
    {
        let place = conflict_place(self.width, word, word);
        mark(&mut self.conflicts, place);
    }

    /// A word is set: before, it is not live.
    pub fn set(&mut self, table: &[u32], word: u32)
        ensures { held_by self.new ≡ setting table.now (held_by self.old) word }
    {
        self.free(table, word);
        self.note(word);
    }

    /// A counter is live through its loop, whose body so sets the counter's variable nowhere. It has to keep its own
    /// variable but where the loop goes from a number to a number: its work does not hang on the iterations that are
    /// counted then.
    pub fn count(&mut self, table: &[u32], counter: u32, numbers: bool)
        ensures { held_by self.new ≡ counting table.now (held_by self.old) counter numbers }
    {
        self.live(table, counter);
        if !numbers {
            self.note_own(counter);
        }
    }

    /// These are the holders where an iteration of a loop may begin or the loop is over. What is live before an
    /// iteration has to be live there.
    pub fn close(&mut self, table: &[u32], counter: u32, head: Vec<Option<u32>>)
        ensures { (before : Held)
            → before.holders ≡ head.items
            → held_by self.new ≡ closed table.now counter before (held_by self.old) }
    {
        self.set(table, counter);
        let fine = covers(head.as_slice(), self.holders.as_slice());
        self.require(fine);
        self.holders = head;
    }

    /// What is live before another run is so too.
    pub fn join(&mut self, holders: &[Option<u32>])
        ensures { held_by self.new ≡ joined (held_by self.old) 0 holders.now }
    {
        for (variable, word) in holders.iter().enumerate() {
            if let Some(word) = *word {
                self.hold(variable, word);
            }
        }
    }

    /// Puts other holders here, and gives those that were here.
    pub fn replace(&mut self, holders: Vec<Option<u32>>) -> Vec<Option<u32>>
        ensures live { held_by self.new ≡ anew (held_by self.old) holders.items }
        ensures before { result.items ≡ self.old.holders.items }
    {
        mem::replace(&mut self.holders, holders)
    }

    /// A copy of the holders.
    pub fn copy_holders(&self, alloc: Global) -> Result<Vec<Option<u32>>, AllocError>
        ensures { IfOk result (λ copy. copy.items ≡ self.now.holders.items) }
    {
        Vec::from_slice(alloc, self.holders.as_slice())
    }
}
