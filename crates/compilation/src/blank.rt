// Which words of a frame have to be zeros where code begins.

ghost use Rattle.std.specs.Prelude.{◌≡◌, ◌≤◌, ◌+◌, ◌*◌, ◌++◌, OnOk, IfOk};
ghost use Rattle.std.specs.Option.{option_map};
ghost use Rattle.branch_removal.specs.Kept.{IsStraight};
ghost use Rattle.compilation.specs.Blank.{blank_from, blank_of, has_few_values, words_from};
ghost use Rattle.inline.specs.FlatSize.{declared_words, words_of};

use branch_removal::StraightCode;
use inline::FlatVariable;
use language::Kind;
use std::alloc::{AllocError, Global};
use variable_room::set_first::program_sets_first;

/// The bytes of a word.
const WORD: u32 = 4;

/// How many words a variable takes.
fn words(variable: FlatVariable) -> u32
    requires { words_of variable ≤ 16384 }
    ensures { result ≡ words_of variable }
{
    match variable.elements {
        None => 1,
        Some(size) => {
            let bytes = u64::from(size) * u64::from(variable.word.kind.element_bytes());
            bytes.div_ceil(4) as u32
        }
    }
}

/// Whether a variable's slot can hold what the variable cannot: a number of 8 or 16 bits has a slot of 32, and a bool
/// is 0 or 1.
fn has_few_values(variable: FlatVariable) -> bool
    ensures { result ≡ has_few_values variable.word.kind variable.elements }
{
    match variable.word.kind {
        Kind::Boolean => true,
        Kind::Uint8 | Kind::Uint16 => variable.elements.is_none(),
        Kind::Uint32 => false,
    }
}

/// Puts the offsets of so many words at the end.
fn push_words(offsets: &mut Vec<u32>, low: u32, count: u32) -> Result<(), AllocError>
    requires { low + 4 * count ≤ 131072 }
    ensures { OnOk result (offsets.new.items ≡ offsets.old.items ++ words_from low count) }
{
    let mut offset = low;
    let mut left = count;
    'words: while left != 0 {
        offsets.push(offset)?;
        offset += WORD;
        left -= 1;
    }
    Ok(())
}

/// Puts those of variables that have few values at the end, but of the first ones, which are parameters.
fn push_variables(
    offsets: &mut Vec<u32>,
    parameters: usize,
    declared: &[FlatVariable],
) -> Result<u32, AllocError>
    requires { 4 * declared_words declared.now ≤ 65536 }
    ensures pushed { OnOk result (offsets.new.items ≡ offsets.old.items ++ blank_from parameters 0 declared.now) }
    ensures end { IfOk result (λ end. end ≡ 4 * declared_words declared.now) }
{
    let mut low = 0;
    for (number, variable) in declared.iter().enumerate() {
        let count = words(*variable);
        if number >= parameters && has_few_values(*variable) {
            push_words(offsets, low, count)?;
        }
        low += WORD * count;
    }
    Ok(low)
}

/// Straight code is well typed, and within the limits on size.
pub fn straight_code_is_kept(straight: &StraightCode<'_>)
    ensures { IsStraight straight.now }
{
    straight.body();
}

/// The offsets of the words of a frame that have to be zeros where a program's code begins, or none where all have to
/// be: those of variables with few values, as the frame lays them out, and of the control values.
pub fn blank_words(
    alloc: Global,
    straight: &StraightCode<'_>,
    laid: &[FlatVariable],
) -> Result<Option<Vec<u32>>, AllocError>
    requires { 4 * declared_words laid.now ≤ 65536 }
    ensures blank { IfOk result (λ blank.
        option_map (λ offsets. offsets.items) blank ≡ blank_of laid.now straight.now) }
    ensures kept { IsStraight straight.now }
{
    straight_code_is_kept(straight);
    if !program_sets_first(alloc, straight)? {
        return Ok(None);
    }
    let mut offsets = Vec::new(alloc);
    let parameters = straight.parameters().len();
    let end = push_variables(&mut offsets, parameters, laid)?;
    push_words(&mut offsets, end + WORD, straight.controls())?;
    Ok(Some(offsets))
}
