// Statements over the variables that words live in, from the last one back to the first.

ghost use Rattle.std.specs.Prelude.{◌≡◌, IfOk, OnOk};
ghost use Rattle.std.specs.Option.{option_map};
ghost use Rattle.branch_removal.specs.Straight as straight;
ghost use Rattle.straight_words.specs.Below.{nothing, straight_block, straight_tree, term_tree};
ghost use Rattle.straight_words.specs.live_words.private.Held.{held_by};
ghost use Rattle.straight_words.specs.live_words.private.Sharing.{are_numbers, before, before_all, before_put};
ghost use Rattle.straight_words.specs.live_words.private.Sharing.{in_front, onto, setting_within, shared};
ghost use Rattle.straight_words.specs.live_words.private.Sharing.{shared_all};

use crate::live_words::gathering::gather_loop;
use crate::live_words::live::{Live, share};
use crate::live_words::terms::{all_renamed, is_dead, read, read_all, renamed};
use branch_removal::{StraightStatement, branch_of, loop_of};
use inline::Term;
use std::alloc::{AllocError, Global};

/// Whether both bounds of a loop are numbers.
fn are_numbers(low: &Term, high: &Term) -> bool
    ensures { result ≡ are_numbers (term_tree low.now) (term_tree high.now) }
{
    matches!((low, high), (Term::Number(_, _), Term::Number(_, _)))
}

/// Before an array's element is set.
fn put(live: &mut Live, table: &[u32], array: u32, index: &Term, value: &Term)
    ensures { held_by live.new
        ≡ before_put table.now (held_by live.old) array (term_tree index.now) (term_tree value.now) }
{
    live.live(table, array);
    read(live, table, &[], value);
    read(live, table, &[], index);
}

/// Puts a statement behind others, where there is one; the last of them comes first.
fn push_any(
    backwards: &mut Vec<StraightStatement>,
    code: Option<StraightStatement>,
) -> Result<(), AllocError>
    ensures { OnOk result (onto (straight_block backwards.new.items) nothing
        ≡ in_front (option_map straight_tree code) (onto (straight_block backwards.old.items) nothing)) }
{
    if let Some(code) = code {
        backwards.push(code)?;
    }
    Ok(())
}

/// Statements that come from the last one to the first, in their order.
fn in_order(
    alloc: Global,
    mut backwards: Vec<StraightStatement>,
) -> Result<Vec<StraightStatement>, AllocError>
    ensures { IfOk result (λ code. straight_block code.items ≡ onto (straight_block backwards.items) nothing) }
{
    let mut code = Vec::new(alloc);
    while let Some(statement) = backwards.pop() {
        code.push(statement)?;
    }
    Ok(code)
}

/// Before a word is set, which keeps what it holds where a control value around it is false.
fn set_within(live: &mut Live, table: &[u32], within: Option<u32>, word: u32)
    ensures { held_by live.new ≡ setting_within table.now (held_by live.old) within word }
{
    match within {
        None => live.set(table, word),
        Some(_) => live.live(table, word),
    }
}

/// A word is set, where that is not left out.
fn set(
    alloc: Global,
    live: &mut Live,
    table: &[u32],
    within: Option<u32>,
    word: u32,
    value: &Term,
) -> Result<Option<StraightStatement>, AllocError>
    ensures code { IfOk result (λ code. option_map straight_tree code
        ≡ shared table.now (held_by live.old) (straight.set within word (term_tree value.now))) }
    ensures live { OnOk result (held_by live.new
        ≡ before table.now (held_by live.old) (straight.set within word (term_tree value.now))) }
{
    if is_dead(live, table, word, value) {
        return Ok(None);
    }
    set_within(live, table, within, word);
    read(live, table, &[], value);
    let value = renamed(alloc, table, value)?;
    Ok(Some(StraightStatement::Set(within, share(table, word), value)))
}

/// A statement over the variables that words live in, where it is not left out. What is live before it is noted.
#[cycle(sharing)]
fn statement(
    alloc: Global,
    live: &mut Live,
    table: &[u32],
    statement: &StraightStatement,
) -> Result<Option<StraightStatement>, AllocError>
    ensures code { IfOk result (λ code.
        option_map straight_tree code ≡ shared table.now (held_by live.old) (straight_tree statement.now)) }
    ensures live { OnOk result (held_by live.new ≡ before table.now (held_by live.old) (straight_tree statement.now)) }
{
    match statement {
        StraightStatement::Set(within, word, value) => {
            set(alloc, live, table, *within, *word, value)
        }
        StraightStatement::Array(array, size, values) => {
            live.set(table, *array);
            read_all(live, table, &[], values);
            let values = all_renamed(alloc, table, values)?;
            Ok(Some(StraightStatement::Array(share(table, *array), *size, values)))
        }
        StraightStatement::Put(within, place, array, size, index, value) => {
            put(live, table, *array, index, value);
            let index = renamed(alloc, table, index)?;
            let value = renamed(alloc, table, value)?;
            let array = share(table, *array);
            Ok(Some(StraightStatement::Put(*within, *place, array, *size, index, value)))
        }
        StraightStatement::Take(control, within, condition) => {
            read(live, table, &[], condition);
            let condition = renamed(alloc, table, condition)?;
            Ok(Some(StraightStatement::Take(*control, *within, condition)))
        }
        StraightStatement::Branch(condition, accepted, otherwise) => {
            branch(alloc, live, table, condition, accepted, otherwise)
        }
        StraightStatement::Repeat(counter, low, high, body) => {
            repeat(alloc, live, table, *counter, low, high, body)
        }
    }
}

/// A branch: both arms end where it ends.
#[cycle(sharing)]
fn branch(
    alloc: Global,
    live: &mut Live,
    table: &[u32],
    condition: &Term,
    accepted: &[StraightStatement],
    otherwise: &[StraightStatement],
) -> Result<Option<StraightStatement>, AllocError>
    ensures code { IfOk result (λ code. option_map straight_tree code
        ≡ shared table.now (held_by live.old) (straight.branch (term_tree condition.now) (straight_block accepted.now)
        (straight_block otherwise.now))) }
    ensures live { OnOk result (held_by live.new ≡ before table.now (held_by live.old)
        (straight.branch (term_tree condition.now) (straight_block accepted.now) (straight_block otherwise.now))) }
{
    let behind = live.copy_holders(alloc)?;
    let other = statements(alloc, live, table, otherwise)?;
    let second = live.replace(behind);
    let one = statements(alloc, live, table, accepted)?;
    live.join(second.as_slice());
    read(live, table, &[], condition);
    let condition = renamed(alloc, table, condition)?;
    Ok(Some(branch_of(condition, one, other)))
}

/// A loop: its body begins and ends where an iteration may begin or the loop is over.
#[cycle(sharing)]
fn repeat(
    alloc: Global,
    live: &mut Live,
    table: &[u32],
    counter: u32,
    low: &Term,
    high: &Term,
    body: &[StraightStatement],
) -> Result<Option<StraightStatement>, AllocError>
    ensures code { IfOk result (λ code. option_map straight_tree code
        ≡ shared table.now (held_by live.old)
        (straight.repeats counter (term_tree low.now) (term_tree high.now) (straight_block body.now))) }
    ensures live { OnOk result (held_by live.new ≡ before table.now (held_by live.old)
        (straight.repeats counter (term_tree low.now) (term_tree high.now) (straight_block body.now))) }
{
    gather_loop(alloc, live, table, counter, body)?;
    let head = live.copy_holders(alloc)?;
    live.count(table, counter, are_numbers(low, high));
    let iteration = statements(alloc, live, table, body)?;
    live.close(table, counter, head);
    read(live, table, &[], high);
    read(live, table, &[], low);
    let low = renamed(alloc, table, low)?;
    let high = renamed(alloc, table, high)?;
    let shared = share(table, counter);
    Ok(Some(loop_of(shared, low, high, iteration)))
}

/// Statements, from the last one back to the first.
#[cycle(sharing)]
pub fn statements(
    alloc: Global,
    live: &mut Live,
    table: &[u32],
    body: &[StraightStatement],
) -> Result<Vec<StraightStatement>, AllocError>
    ensures code { IfOk result (λ code.
        straight_block code.items ≡ shared_all table.now (held_by live.old) (straight_block body.now)) }
    ensures live { OnOk result (held_by live.new ≡ before_all table.now (held_by live.old) (straight_block body.now)) }
{
    let mut backwards = Vec::new(alloc);
    for behind in 0..body.len() {
        let each = &body[body.len() - 1 - behind];
        let code = statement(alloc, live, table, each)?;
        push_any(&mut backwards, code)?;
    }
    in_order(alloc, backwards)
}
