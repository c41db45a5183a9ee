// The words that a program's arrays become, and the program in which they are.

ghost use Rattle.std.specs.Prelude.{◌≡◌, ◌+◌, ◌-◌, ◌*◌, ◌<◌, ◌≤◌, ◌∷◌, ◌++◌, Some, IfErr, IfOk, IfSome, OnOk};
ghost use Rattle.straight_words.specs.Below.{declared_words, IsReplaced, IsStraight, IsWantOfMemory};
ghost use Rattle.straight_words.specs.Below.{most_variable_bytes};
ghost use Rattle.straight_words.specs.element_words.Exact.{split_of, words_of};
ghost use Rattle.straight_words.specs.element_words.private.Parts.{Parts as Table, all_words, numbered, words_for};
ghost use Rattle.straight_words.specs.element_words.private.Plan.{parts_of, room_beside, used_parts};

use crate::element_words::narrowing::{narrow_by_all, narrow_result};
use crate::element_words::parts::{SplitArray, SplitArrays};
use crate::element_words::statements::block;
use crate::rewriting::terms::rewritten_where_any;
use branch_removal::{StraightCode, words_taken};
use inline::FlatVariable;
use language::Refusal;
use std::alloc::{AllocError, Global};
use std::marker::Model;

/// How many words arrays become, in all.
const MOST_NEW_WORDS: u16 = 512;

/// How many words the variables may take, in all.
pub const MOST_VARIABLE_WORDS: usize = 10192;

/// How many words there is room for beside these variables.
fn room_beside(declared: &[FlatVariable]) -> u16
    requires { 4 * declared_words declared.now ≤ most_variable_bytes }
    ensures { result ≡ room_beside declared.now }
{
    let mut taken = 0;
    for variable in declared {
        taken += words_taken(variable) as u16;
    }
    (MOST_VARIABLE_WORDS as u16 - taken).min(MOST_NEW_WORDS)
}

/// Puts an array behind the others, with words from this number on, or whole where there is no room for so many. How
/// many words it becomes.
fn push_numbered(
    arrays: &mut Vec<Option<SplitArray>>,
    array: Option<SplitArray>,
    base: u16,
    room: u16,
) -> Result<u16, AllocError>
    ensures within { IfOk result (λ size. size ≤ room) }
    ensures left { IfOk result (λ size. (rest : Table)
        → arrays.new.items ++ numbered (base + size) (room - size) rest
        ≡ arrays.old.items ++ numbered base room (array ∷ rest)) }
{
    match array {
        Some(part) => {
            if part.size <= room {
                arrays.push(Some(SplitArray { base, ..part }))?;
                Ok(part.size)
            } else {
                arrays.push(None)?;
                Ok(0)
            }
        }
        None => {
            arrays.push(None)?;
            Ok(0)
        }
    }
}

/// The arrays with words from this number on, each as long as there is room for so many.
fn numbered(
    alloc: Global,
    parts: &SplitArrays,
    first: u16,
    most: u16,
) -> Result<SplitArrays, AllocError>
    requires { first + most < 65536 }
    ensures { IfOk result (λ made. made.arrays.items ≡ numbered first most parts.now.arrays.items) }
{
    let mut arrays = Vec::new(alloc);
    let mut base = first;
    let mut room = most;
    for array in &parts.arrays {
        let size = push_numbered(&mut arrays, *array, base, room)?;
        base += size;
        room -= size;
    }
    Ok(SplitArrays { arrays })
}

/// Puts the words of an array behind the variables.
fn push_words(declared: &mut Vec<FlatVariable>, part: SplitArray) -> Result<(), AllocError>
    ensures { OnOk result (declared.new.items ≡ declared.old.items ++ words_for (Some part)) }
{
    for _word in 0..part.size {
        declared.push(FlatVariable {
            word: part.word,
            mutable: true,
            elements: None,
        })?;
    }
    Ok(())
}

/// The variables, and behind them the words of all arrays.
fn with_words(
    alloc: Global,
    variables: &[FlatVariable],
    parts: &SplitArrays,
) -> Result<Vec<FlatVariable>, AllocError>
    ensures { IfOk result (λ declared. declared.items ≡ variables.now ++ all_words parts.now.arrays.items) }
{
    let mut declared = variables.to_vec(alloc)?;
    for part in &parts.arrays {
        if let Some(part) = part {
            push_words(&mut declared, *part)?;
        }
    }
    Ok(declared)
}

/// The arrays that are used by known indices alone.
fn used_parts(alloc: Global, straight: &StraightCode<'_>) -> Result<SplitArrays, AllocError>
    ensures parts { IfOk result (λ parts. parts.arrays.items ≡ used_parts straight.now) }
    ensures kept { IfOk result (λ parts. IsStraight straight.now) }
{
    let body = straight.body();
    let mut parts = SplitArrays::candidates(
        alloc,
        straight.parameters().len(),
        straight.declared(),
    )?;
    narrow_by_all(&mut parts, body);
    narrow_result(&mut parts, straight.value());
    Ok(parts)
}

/// What a program's arrays become.
fn parts_of(alloc: Global, straight: &StraightCode<'_>) -> Result<SplitArrays, AllocError>
    ensures { IfOk result (λ parts. parts.arrays.items ≡ parts_of straight.now) }
{
    let declared = straight.declared();
    if MOST_VARIABLE_WORDS < declared.len() {
        return Ok(SplitArrays::none(alloc));
    }
    let parts = used_parts(alloc, straight)?;
    numbered(alloc, &parts, declared.len() as u16, room_beside(declared))
}

/// The words that a program's short arrays become, where they are used by known indices alone.
#[derive(Drop)]
pub struct ElementWords {
    declared: Vec<FlatVariable>,
    parts: SplitArrays,
}

impl Model for ElementWords {
    ghost use Rattle.straight_words.specs.element_words.private.Plan.{WordPlan};

    ghost Value = { WordPlan };

    ghost view = { λ words. record { declared = words.declared.items; parts = words.parts.arrays.items } };
}

impl ElementWords {
    /// The words that a program's arrays become. The program alone decides them. Running out of memory alone refuses
    /// it.
    pub fn of(alloc: Global, straight: &StraightCode<'_>) -> Result<ElementWords, Refusal>
        ensures exact { IfOk result (λ words. words ≡ words_of straight.now) }
        ensures memory { IfErr result (λ refusal. IsWantOfMemory refusal.rule refusal.place) }
    {
        let parts = parts_of(alloc, straight)?;
        let declared = with_words(alloc, straight.declared(), &parts)?;
        Ok(ElementWords { declared, parts })
    }

    /// The program in which its arrays are these words. It may stand in the place of the program that it is made of,
    /// which alone decides it; there is none where it would not be well typed or not within the limits on size. Running
    /// out of memory alone refuses it.
    pub fn apply<'g, 'f>(
        &'g self,
        alloc: Global,
        straight: &StraightCode<'f>,
    ) -> Result<Option<StraightCode<'g>>, Refusal>
    where
        'f: 'g,
        requires { self.now ≡ words_of straight.now }
        ensures replaced { IfOk result (λ made. IfSome made (IsReplaced straight.now)) }
        ensures exact { IfOk result (λ made. made ≡ split_of straight.now) }
        ensures memory { IfErr result (λ refusal. IsWantOfMemory refusal.rule refusal.place) }
    {
        let code = block(alloc, &self.parts, straight.body())?;
        let value = rewritten_where_any(alloc, &self.parts, straight.value())?;
        Ok(straight.rewritten(self.declared.as_slice(), code, value))
    }
}
