// Statements in which an array that is split is so many words, each put behind what there is.

ghost use Rattle.std.specs.Prelude.{◌≡◌, drop, map, IfOk, OnOk};
ghost use Rattle.straight_words.specs.Below.{chain, straight_block, straight_tree, term_tree};
ghost use Rattle.straight_words.specs.element_words.private.Parts.{part_of};
ghost use Rattle.straight_words.specs.element_words.private.Splitting.{first_value, given_words, new_array, single};
ghost use Rattle.straight_words.specs.element_words.private.Splitting.{split, split_all, split_in};

use crate::element_words::parts::{SplitArray, SplitArrays};
use crate::rewriting::statements::rewritten_statement;
use crate::rewriting::terms::{all_rewritten, rewritten};
use branch_removal::{StraightStatement, branch_of, loop_of};
use inline::Term;
use language::Kind;
use std::alloc::{AllocError, Global};

/// Puts a statement behind a block.
pub fn push(
    code: &mut Vec<StraightStatement>,
    statement: StraightStatement,
) -> Result<(), AllocError>
    ensures { OnOk result (straight_block code.new.items
        ≡ chain (straight_block code.old.items) (single (straight_tree statement))) }
{
    code.push(statement)?;
    Ok(())
}

/// The value of an element of a new array: the one that is given for it, else 0.
fn element_value(
    alloc: Global,
    parts: &SplitArrays,
    values: &[Term],
    element: u16,
    kind: Kind,
) -> Result<Term, AllocError>
    ensures { IfOk result (λ value. term_tree value ≡ first_value kind (map (split parts.now.arrays.items)
        (map term_tree (drop element values.now)))) }
{
    match values.get(usize::from(element)) {
        Some(value) => rewritten(alloc, parts, value),
        None => Ok(Term::Number(0, kind)),
    }
}

/// The words of an array get its first values, or become 0 where none are given.
fn push_words(
    alloc: Global,
    parts: &SplitArrays,
    code: &mut Vec<StraightStatement>,
    part: SplitArray,
    values: &[Term],
) -> Result<(), AllocError>
    ensures { OnOk result (straight_block code.new.items
        ≡ chain (straight_block code.old.items) (given_words part.base part.size part.word.kind (map
        (split parts.now.arrays.items) (map term_tree values.now)))) }
{
    for k in 0..part.size {
        let word = u32::from(part.base) + u32::from(k);
        let value = element_value(alloc, parts, values, k, part.word.kind)?;
        push(code, StraightStatement::Set(None, word, value))?;
    }
    Ok(())
}

/// A new array, whole or as its words.
fn new_array(
    alloc: Global,
    parts: &SplitArrays,
    code: &mut Vec<StraightStatement>,
    array: u32,
    size: u32,
    values: &[Term],
) -> Result<(), AllocError>
    ensures { OnOk result (straight_block code.new.items
        ≡ chain (straight_block code.old.items) (new_array (part_of parts.now.arrays.items array) array size (map
        (split parts.now.arrays.items) (map term_tree values.now)))) }
{
    match parts.of(array) {
        Some(part) => push_words(alloc, parts, code, part, values),
        None => {
            let values = all_rewritten(alloc, parts, values)?;
            push(code, StraightStatement::Array(array, size, values))
        }
    }
}

/// A statement.
#[cycle(splitting)]
fn statement(
    alloc: Global,
    parts: &SplitArrays,
    code: &mut Vec<StraightStatement>,
    statement: &StraightStatement,
) -> Result<(), AllocError>
    ensures { OnOk result (straight_block code.new.items
        ≡ chain (straight_block code.old.items) (split_in parts.now.arrays.items (straight_tree statement.now))) }
{
    match statement {
        StraightStatement::Set(_, _, _) | StraightStatement::Take(_, _, _) => {
            let made = rewritten_statement(alloc, parts, statement)?;
            push(code, made)
        }
        StraightStatement::Array(array, size, values) => {
            new_array(alloc, parts, code, *array, *size, values)
        }
        StraightStatement::Put(within, place, array, size, index, value) => {
            let word = parts.word(*array, index);
            let index = rewritten(alloc, parts, index)?;
            let value = rewritten(alloc, parts, value)?;
            let put = match word {
                Some(word) => StraightStatement::Set(*within, word, value),
                None => StraightStatement::Put(*within, *place, *array, *size, index, value),
            };
            push(code, put)
        }
        StraightStatement::Branch(condition, accepted, otherwise) => {
            let condition = rewritten(alloc, parts, condition)?;
            let one = block(alloc, parts, accepted)?;
            let other = block(alloc, parts, otherwise)?;
            push(code, branch_of(condition, one, other))
        }
        StraightStatement::Repeat(counter, low, high, body) => {
            let low = rewritten(alloc, parts, low)?;
            let high = rewritten(alloc, parts, high)?;
            let iteration = block(alloc, parts, body)?;
            push(code, loop_of(*counter, low, high, iteration))
        }
    }
}

/// Statements, one after the other.
#[cycle(splitting)]
pub fn block(
    alloc: Global,
    parts: &SplitArrays,
    body: &[StraightStatement],
) -> Result<Vec<StraightStatement>, AllocError>
    ensures { IfOk result (λ code.
        straight_block code.items ≡ split_all parts.now.arrays.items (straight_block body.now)) }
{
    let mut code = Vec::new(alloc);
    for each in body {
        statement(alloc, parts, &mut code, each)?;
    }
    Ok(code)
}
