// Expressions: which words they read, and how they read where words share variables.

ghost use Rattle.std.specs.Prelude.{◌≡◌, map, IfOk};
ghost use Rattle.std.specs.Option.{option_map};
ghost use Rattle.straight_words.specs.Below.{term_tree};
ghost use Rattle.straight_words.specs.live_words.private.Held.{held_by};
ghost use Rattle.straight_words.specs.live_words.private.Terms.{is_dead, reading, reading_all, renamed};
ghost use Rattle.straight_words.specs.live_words.private.Whole.{reading_any};

use crate::live_words::live::{Live, share};
use branch_removal::is_quiet;
use inline::Term;
use std::alloc::{AllocError, Global};

/// What an expression reads and was not set already is live.
pub fn read(live: &mut Live, table: &[u32], done: &[bool], term: &Term)
    ensures { held_by live.new ≡ reading table.now done.now (held_by live.old) (term_tree term.now) }
{
    match term {
        Term::Number(_, _) | Term::Truth(_) => {}
        Term::Variable(word) => live.live_where(table, done, *word),
        Term::Prefix(_, _, operand) | Term::Rotate(_, operand, _) | Term::Convert(_, operand) => {
            read(live, table, done, operand);
        }
        Term::Binary(_, _, _, left, right) => {
            read(live, table, done, right);
            read(live, table, done, left);
        }
        Term::Select(condition, accepted, otherwise) => {
            read(live, table, done, otherwise);
            read(live, table, done, accepted);
            read(live, table, done, condition);
        }
        Term::Element(_, array, _, index) => {
            live.live_where(table, done, *array);
            read(live, table, done, index);
        }
    }
}

/// So is what expressions read.
pub fn read_all(live: &mut Live, table: &[u32], done: &[bool], terms: &[Term])
    ensures { held_by live.new ≡ reading_all table.now done.now (held_by live.old) (map term_tree terms.now) }
{
    for term in terms {
        read(live, table, done, term);
    }
}

/// So is what an expression reads, where there is one.
pub fn read_any(live: &mut Live, table: &[u32], term: Option<&Term>)
    ensures { held_by live.new
        ≡ reading_any table.now (held_by live.old) (option_map (λ term. term_tree term.now) term.entry) }
{
    if let Some(term) = term {
        read(live, table, &[], term);
    }
}

/// An expression over the variables that words live in.
#[cycle(renamed)]
pub fn renamed(alloc: Global, table: &[u32], term: &Term) -> Result<Term, AllocError>
    ensures { IfOk result (λ copy. term_tree copy ≡ renamed table.now (term_tree term.now)) }
{
    match term {
        Term::Number(value, kind) => Ok(Term::Number(*value, *kind)),
        Term::Truth(value) => Ok(Term::Truth(*value)),
        Term::Variable(word) => Ok(Term::Variable(share(table, *word))),
        Term::Prefix(operator, width, operand) => {
            let operand = boxed(alloc, table, operand)?;
            Ok(Term::Prefix(*operator, *width, operand))
        }
        Term::Binary(place, operator, width, left, right) => {
            let left = boxed(alloc, table, left)?;
            let right = boxed(alloc, table, right)?;
            Ok(Term::Binary(*place, *operator, *width, left, right))
        }
        Term::Rotate(width, operand, amount) => {
            let operand = boxed(alloc, table, operand)?;
            Ok(Term::Rotate(*width, operand, *amount))
        }
        Term::Convert(kind, operand) => {
            let operand = boxed(alloc, table, operand)?;
            Ok(Term::Convert(*kind, operand))
        }
        Term::Select(condition, accepted, otherwise) => {
            let condition = boxed(alloc, table, condition)?;
            let accepted = boxed(alloc, table, accepted)?;
            let otherwise = boxed(alloc, table, otherwise)?;
            Ok(Term::Select(condition, accepted, otherwise))
        }
        Term::Element(place, array, size, index) => {
            let index = boxed(alloc, table, index)?;
            Ok(Term::Element(*place, share(table, *array), *size, index))
        }
    }
}

/// The same, in a box of its own.
#[cycle(renamed)]
fn boxed(alloc: Global, table: &[u32], term: &Term) -> Result<Box<Term>, AllocError>
    ensures { IfOk result (λ copy. term_tree copy.value ≡ renamed table.now (term_tree term.now)) }
{
    let copy = renamed(alloc, table, term)?;
    Ok(Box::new(alloc, copy)?)
}

/// Expressions, in their order.
pub fn all_renamed(alloc: Global, table: &[u32], terms: &[Term]) -> Result<Vec<Term>, AllocError>
    ensures { IfOk result (λ copies. map term_tree copies.items ≡ map (renamed table.now) (map term_tree terms.now)) }
{
    let mut copies = Vec::new(alloc);
    for term in terms {
        copies.push(renamed(alloc, table, term)?)?;
    }
    Ok(copies)
}

/// An expression, where there is one.
pub fn renamed_any(
    alloc: Global,
    table: &[u32],
    term: Option<&Term>,
) -> Result<Option<Term>, AllocError>
    ensures { IfOk result (λ copy. option_map term_tree copy
        ≡ option_map (renamed table.now) (option_map (λ term. term_tree term.now) term.entry)) }
{
    match term {
        Some(term) => Ok(Some(renamed(alloc, table, term)?)),
        None => Ok(None),
    }
}

/// Whether setting a word to an expression is left out: nobody reads it, and the expression shows nothing.
pub fn is_dead(live: &Live, table: &[u32], word: u32, value: &Term) -> bool
    ensures { result ≡ is_dead table.now (held_by live.now) word (term_tree value.now) }
{
    live.fits && !live.is_live(table, word) && is_quiet(value)
}
