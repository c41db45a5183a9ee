// The words that stand in code.

ghost use Rattle.std.specs.Prelude.{◌≡◌, ◌%◌, ◌^◌, ◌<◌, All, length, IfOk};
ghost use Rattle.input_files.specs.wrapping.Wrapped.{AreWordsOf};

use crate::wrapping::checking::WORD_BYTES;
use byteorder::{ByteOrder, LittleEndian};
use std::alloc::{AllocError, Global};

/// The words of code, each with its lowest byte first.
pub(crate) fn words_of(alloc: Global, code: &[u8]) -> Result<Vec<u32>, AllocError>
    requires { length code.now % 4 ≡ 0 }
    ensures words { IfOk result (λ words. AreWordsOf code.now words.items) }
    ensures fit { IfOk result (λ words. All (λ word. word < 2 ^ 32) words.items) }
{
    let mut words = Vec::with_capacity(alloc, code.len() / WORD_BYTES)?;
    'words: for word in code.chunks_exact(WORD_BYTES) {
        words.push(LittleEndian::read_u32(word))?;
    }
    Ok(words)
}
