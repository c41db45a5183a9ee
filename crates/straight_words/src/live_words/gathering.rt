// What a loop's body may read of what it did not set.

ghost use Rattle.std.specs.Prelude.{◌≡◌, OnOk};
ghost use Rattle.straight_words.specs.Below.{set, straight_block, straight_tree, term_tree};
ghost use Rattle.straight_words.specs.live_words.private.Gathering.{at_head, done_after, gathered, gathered_all};
ghost use Rattle.straight_words.specs.live_words.private.Gathering.{with_done, with_done_within};
ghost use Rattle.straight_words.specs.live_words.private.Held.{held_by};

use crate::live_words::live::Live;
use crate::live_words::terms::{read, read_all};
use branch_removal::StraightStatement;
use inline::Term;
use std::alloc::{AllocError, Global};

/// A word was set too.
fn note_done(done: &mut Vec<bool>, word: u32)
    ensures { done.new.items ≡ with_done done.old.items word }
{
    if let Some(done) = done.get_mut(word as usize) {
        *done = true;
    }
}

/// A word was set too, but for where a control value around it may be false.
fn note_set(done: &mut Vec<bool>, within: Option<u32>, word: u32)
    ensures { done.new.items ≡ with_done_within done.old.items within word }
{
    match within {
        None => note_done(done, word),
        Some(_) => {}
    }
}

/// What was set once a statement has run. Of what is set in a part that may run or not nothing is known behind it.
fn note_done_by(done: &mut Vec<bool>, statement: &StraightStatement)
    ensures { done.new.items ≡ done_after done.old.items (straight_tree statement.now) }
{
    match statement {
        StraightStatement::Set(within, word, _) => note_set(done, *within, *word),
        StraightStatement::Array(word, _, _) => note_done(done, *word),
        StraightStatement::Put(_, _, _, _, _, _)
        | StraightStatement::Take(_, _, _)
        | StraightStatement::Branch(_, _, _)
        | StraightStatement::Repeat(_, _, _, _) => {}
    }
}

/// What a value reads that a word is set to is live, and within a control value the word, which may keep what it holds.
fn gather_set(
    live: &mut Live,
    table: &[u32],
    done: &[bool],
    within: Option<u32>,
    word: u32,
    value: &Term,
)
    ensures { held_by live.new
        ≡ gathered table.now done.now (held_by live.old) (set within word (term_tree value.now)) }
{
    match within {
        None => read(live, table, done, value),
        Some(_) => {
            live.live_where(table, done, word);
            read(live, table, done, value);
        }
    }
}

/// What a statement reads and was not set already is live.
#[cycle(gathering)]
fn gather(
    alloc: Global,
    live: &mut Live,
    table: &[u32],
    done: &[bool],
    statement: &StraightStatement,
) -> Result<(), AllocError>
    ensures { OnOk result (held_by live.new
        ≡ gathered table.now done.now (held_by live.old) (straight_tree statement.now)) }
{
    match statement {
        StraightStatement::Set(within, word, value) => {
            gather_set(live, table, done, *within, *word, value);
        }
        StraightStatement::Array(_, _, values) => read_all(live, table, done, values),
        StraightStatement::Put(_, _, array, _, index, value) => {
            live.live_where(table, done, *array);
            read(live, table, done, value);
            read(live, table, done, index);
        }
        StraightStatement::Take(_, _, condition) => read(live, table, done, condition),
        StraightStatement::Branch(condition, accepted, otherwise) => {
            read(live, table, done, condition);
            gather_all(alloc, live, table, Vec::from_slice(alloc, done)?, accepted)?;
            gather_all(alloc, live, table, Vec::from_slice(alloc, done)?, otherwise)?;
        }
        StraightStatement::Repeat(counter, low, high, body) => {
            read(live, table, done, high);
            read(live, table, done, low);
            let mut inside = Vec::from_slice(alloc, done)?;
            note_done(&mut inside, *counter);
            gather_all(alloc, live, table, inside, body)?;
        }
    }
    Ok(())
}

/// So is what some statements read.
#[cycle(gathering)]
fn gather_all(
    alloc: Global,
    live: &mut Live,
    table: &[u32],
    mut done: Vec<bool>,
    body: &[StraightStatement],
) -> Result<(), AllocError>
    ensures { OnOk result (held_by live.new
        ≡ gathered_all table.now done.items (held_by live.old) (straight_block body.now)) }
{
    for statement in body {
        gather(alloc, live, table, done.as_slice(), statement)?;
        note_done_by(&mut done, statement);
    }
    Ok(())
}

/// What is live where an iteration of a loop may begin, or the loop is over.
pub fn gather_loop(
    alloc: Global,
    live: &mut Live,
    table: &[u32],
    counter: u32,
    body: &[StraightStatement],
) -> Result<(), AllocError>
    ensures { OnOk result (held_by live.new ≡ at_head table.now (held_by live.old) counter (straight_block body.now)) }
{
    let mut done = vec![in alloc; false; live.holders.len()]?;
    note_done(&mut done, counter);
    gather_all(alloc, live, table, done, body)
}
