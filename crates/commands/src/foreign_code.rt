// An image of code that another compiler made.

ghost use Rattle.std.specs.Prelude.{◌≡◌, ◌+◌, ◌*◌, false, IsTrue, IfOk, IfErr, OnOk};
ghost use Rattle.commands.specs.Below.{most_words};
ghost use Rattle.commands.specs.Contents.{BeginsFile};
ghost use Rattle.commands.specs.Failures.{failures_by, IsReadBy};
ghost use Rattle.commands.specs.WrappedCode.{begins_as_elf, IsImageOfCode, NoCode, RefusesCode};
ghost use Rattle.commands.specs.Written.{IsWriteFault, WritesFile, FailsToWrite};

use crate::fault::{Fault, FileFault};
use crate::files::Files;
use crate::reading::bytes_of;
use crate::texts::{text_of_file, write_file};
use expression_code::image_fields::MOST_WORDS;
use input_files::wrapping::{Asked, WrapFault, wrap};
use std::alloc::Global;

/// How many bytes of code are read at most: one more than an image may have, so that longer code is refused.
const CODE_LIMIT: usize = 4 * MOST_WORDS as usize + 1;

/// Whether bytes begin as an ELF file does.
fn begins_as_elf(bytes: &[u8]) -> bool
    ensures { result ≡ begins_as_elf bytes.now }
{
    if let [a, b, c, d, ..] = bytes {
        *a == 0x7f && *b == b'E' && *c == b'L' && *d == b'F'
    } else {
        false
    }
}

/// The code of a file, which is no executable: its bytes, and one more where they are more than code may have.
fn code_of<'a, F: Files>(alloc: Global, path: &'a str, files: &mut F) -> Result<Vec<u8>, Fault<'a>>
    ensures begins { IsTrue F.TELLS
        → IfOk result (λ code. BeginsFile (F.store files.old).contents path.now (4 * most_words + 1) code.items) }
    ensures no_elf { IfOk result (λ code. begins_as_elf code.items ≡ false) }
    ensures refused { IsTrue F.TELLS → IfErr result (NoCode (F.store files.old).contents path.now) }
    ensures calm { OnOk result (F.store files.new ≡ F.store files.old) }
    ensures counted { IfErr result (λ fault. IsReadBy fault (F.store files.old) (F.store files.new)) }
{
    let code = bytes_of(alloc, path, CODE_LIMIT, files)?;
    if begins_as_elf(code.as_slice()) {
        return Err(Fault::File(FileFault::IsElf(path)));
    }
    Ok(code)
}

/// Makes an image of the code of one file, with the parameters and the result of the text of another. It is written
/// only once nothing was refused.
pub fn wrap_code<'a, F: Files>(
    alloc: Global,
    file: &'a str,
    code: &'a str,
    image: &'a str,
    asked: Asked,
    files: &mut F,
) -> Result<(), Fault<'a>>
    ensures said { IsTrue F.TELLS
        → OnOk result (WritesFile image.now (IsImageOfCode asked (F.store files.old).contents file.now code.now)
        (F.store files.old).contents (F.store files.new).contents) }
    ensures refused { IsTrue F.TELLS
        → IfErr result (FailsToWrite image.now (IsImageOfCode asked (F.store files.old).contents file.now code.now)
        (RefusesCode asked (F.store files.old).contents file.now code.now) (F.store files.old).contents
        (F.store files.new).contents) }
    ensures untouched { IfErr result (λ fault. (IsWriteFault image.now fault → ⊥)
        → (F.store files.new).contents ≡ (F.store files.old).contents) }
    ensures calm { OnOk result ((F.store files.new).failures ≡ (F.store files.old).failures) }
    ensures counted { IfErr result (λ fault. (F.store files.new).failures
        ≡ failures_by fault (F.store files.old).failures) }
{
    let text = text_of_file(alloc, file, files)?;
    let words = code_of(alloc, code, files)?;
    match wrap(alloc, text.as_str(), words.as_slice(), asked) {
        Ok(bytes) => write_file(image, bytes.as_slice(), files),
        Err(WrapFault::Text(refusal)) => Err(Fault::Text(refusal)),
        Err(WrapFault::Code(rule)) => Err(Fault::Code(rule)),
    }
}
