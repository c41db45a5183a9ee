// The words of the parts of a request, as they are printed.

ghost use Rattle.std.specs.Prelude.{◌≡◌, slice_get, IfOk};
ghost use Rattle.std.specs.String.{string_bytes};
ghost use Rattle.elf_reports.specs.Asking.{part_word, text_or_none, texts};

use crate::asking::AskedWords;
use elf_runs::Part;
use std::alloc::{AllocError, Global};

/// The word at a place, or nothing where there is none.
fn word_at<'a>(words: &[&'a str], k: usize) -> &'a str
    ensures { result.now ≡ text_or_none (slice_get (texts words.now) k) }
{
    match words.get(k) {
        Some(word) => word,
        None => "",
    }
}

/// The word of a part, as the user wrote it; of the stack its size.
pub fn part_word(alloc: Global, words: &AskedWords<'_>, part: Part) -> Result<String, AllocError>
    ensures { IfOk result (λ word. string_bytes word ≡ part_word words.now part) }
{
    match part {
        Part::Function => String::from_str(alloc, words.function),
        Part::Argument(k) => String::from_str(alloc, word_at(words.arguments, k)),
        Part::Secret(k) => String::from_str(alloc, word_at(words.secrets, k)),
        Part::Setting(k) => String::from_str(alloc, word_at(words.settings, k)),
        Part::Stack => format!(in alloc; "{}", words.stack),
    }
}
