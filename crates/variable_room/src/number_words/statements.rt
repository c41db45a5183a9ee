// Statements that give words their numbers.

ghost use Rattle.std.specs.Prelude.{◌≡◌, IfOk};
ghost use Rattle.variable_room.specs.Below.{straight_block, straight_tree};
ghost use Rattle.variable_room.specs.number_words.private.Wording.{setting_of, settings};

use crate::number_words::words::NumberWord;
use branch_removal::StraightStatement;
use inline::Term;
use std::alloc::{AllocError, Global};

/// A word gets its number.
fn setting(word: NumberWord) -> StraightStatement
    ensures { straight_tree result ≡ setting_of word }
{
    let value = Term::Number(word.number.value, word.number.kind);
    StraightStatement::Set(None, word.variable, value)
}

/// Each word gets its number.
pub fn settings(alloc: Global, words: &[NumberWord]) -> Result<Vec<StraightStatement>, AllocError>
    ensures { IfOk result (λ code. straight_block code.items ≡ settings words.now) }
{
    let mut code = Vec::new(alloc);
    for word in words {
        code.push(setting(*word))?;
    }
    Ok(code)
}
