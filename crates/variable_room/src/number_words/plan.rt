// Which numbers become words, and the program in which they are.

ghost use Rattle.std.specs.Prelude.{◌≡◌, ◌++◌, ◌<◌, map, IfErr, IfOk, IfSome};
ghost use Rattle.variable_room.specs.Below.{IsReplaced, IsWantOfMemory};
ghost use Rattle.variable_room.specs.number_words.Exact.{numbers_as_words, number_words_of};
ghost use Rattle.variable_room.specs.number_words.private.Plan.{is_worth, variable_of, chosen, words_in};

use crate::number_words::statements::settings;
use crate::number_words::terms::Wording;
use crate::number_words::uses::{NumberUse, number_uses};
use crate::number_words::words::NumberWord;
use branch_removal::StraightCode;
use inline::FlatVariable;
use language::{Label, Refusal, WordType};
use std::alloc::{AllocError, Global};
use std::marker::Model;
use straight_words::element_words::MOST_VARIABLE_WORDS;
use straight_words::rewriting::statements::push_all;
use straight_words::rewriting::terms::rewritten_where_any;

/// How many numbers become words.
const MOST_WORDS: usize = 64;

/// How much a number is used that becomes one.
const LEAST_WEIGHT: u64 = 4;

/// Whether a number is used so much that it becomes a word.
fn is_worth(each: NumberUse) -> bool
    ensures { result ≡ is_worth each }
{
    LEAST_WEIGHT <= each.weight
}

/// The variable of a word.
fn variable_of(word: NumberWord) -> FlatVariable
    ensures { result ≡ variable_of word }
{
    FlatVariable {
        word: WordType {
            kind: word.number.kind,
            label: Label::Public,
        },
        mutable: true,
        elements: None,
    }
}

/// The words of numbers that are used so much, behind so many variables.
fn chosen(alloc: Global, first: u32, uses: &[NumberUse]) -> Result<Vec<NumberWord>, AllocError>
    requires { first < 65536 }
    ensures { IfOk result (λ words. words.items ≡ chosen first uses.now) }
{
    let mut words = Vec::new(alloc);
    for each in uses {
        if is_worth(*each) && words.len() < MOST_WORDS {
            let variable = first + words.len() as u32;
            words.push(NumberWord {
                number: each.number,
                variable,
            })?;
        }
    }
    Ok(words)
}

/// The words of a program's numbers: none where there are many variables.
fn words_in(alloc: Global, straight: &StraightCode<'_>) -> Result<Vec<NumberWord>, AllocError>
    ensures { IfOk result (λ words. words.items ≡ words_in straight.now) }
{
    let first = straight.declared().len();
    if MOST_VARIABLE_WORDS < first {
        return Ok(Vec::new(alloc));
    }
    let uses = number_uses(alloc, straight)?;
    chosen(alloc, first as u32, uses.as_slice())
}

/// The variables, and the words behind them.
fn with_words(
    alloc: Global,
    variables: &[FlatVariable],
    words: &[NumberWord],
) -> Result<Vec<FlatVariable>, AllocError>
    ensures { IfOk result (λ declared. declared.items ≡ variables.now ++ map variable_of words.now) }
{
    let mut declared = variables.to_vec(alloc)?;
    for word in words {
        declared.push(variable_of(*word))?;
    }
    Ok(declared)
}

/// The words that numbers become which a program uses much.
#[derive(Drop)]
pub struct NumberWords {
    declared: Vec<FlatVariable>,
    words: Vec<NumberWord>,
}

impl Model for NumberWords {
    ghost use Rattle.variable_room.specs.number_words.private.Plan.{NumberPlan};

    ghost Value = { NumberPlan };

    ghost view = { λ words. record { declared = words.declared.items; words = words.words.items } };
}

impl NumberWords {
    /// The words that a program's numbers become. The program alone decides them. Running out of memory alone refuses
    /// it.
    pub fn of(alloc: Global, straight: &StraightCode<'_>) -> Result<NumberWords, Refusal>
        ensures exact { IfOk result (λ words. words ≡ number_words_of straight.now) }
        ensures memory { IfErr result (λ refusal. IsWantOfMemory refusal.rule refusal.place) }
    {
        let words = words_in(alloc, straight)?;
        let declared = with_words(alloc, straight.declared(), words.as_slice())?;
        Ok(NumberWords { declared, words })
    }

    /// The program in which its numbers are these words. It may stand in the place of the program that it is made of,
    /// which alone decides it; there is none where it would not be within the limits on size. Running out of memory
    /// alone refuses it.
    pub fn apply<'g, 'f>(
        &'g self,
        alloc: Global,
        straight: &StraightCode<'f>,
    ) -> Result<Option<StraightCode<'g>>, Refusal>
    where
        'f: 'g,
        requires { self.now ≡ number_words_of straight.now }
        ensures replaced { IfOk result (λ made. IfSome made (IsReplaced straight.now)) }
        ensures exact { IfOk result (λ made. made ≡ numbers_as_words straight.now) }
        ensures memory { IfErr result (λ refusal. IsWantOfMemory refusal.rule refusal.place) }
    {
        let words = self.words.as_slice();
        let mut code = settings(alloc, words)?;
        let wording = Wording { words };
        push_all(alloc, &wording, &mut code, straight.body())?;
        let value = rewritten_where_any(alloc, &wording, straight.value())?;
        Ok(straight.rewritten(self.declared.as_slice(), code, value))
    }
}
