// The files of executables, and the lines of their code.

ghost use Rattle.std.specs.Prelude.{◌≡◌, IsTrue, IfOk, IfErr, OnOk};
ghost use Rattle.commands.specs.Executables.{HoldsShort, IsLineOrNothing, NoExecutable};
ghost use Rattle.commands.specs.Failures.{IsReadBy};

use crate::fault::Fault;
use crate::files::Files;
use crate::reading::bytes_of;
use elf::{ElfFault, ElfRule, Program};
use elf_reports::{encoding_at, encoding_line};
use std::alloc::{AllocError, Global};

/// The most bytes that the file of an executable may have.
const LONGEST_FILE: usize = 1 << 26;

/// The bytes of a file that may be that of an executable. One byte more than such a file may have is read, so that a
/// longer one is refused.
pub fn executable_bytes<'a, F: Files>(
    alloc: Global,
    path: &'a str,
    files: &mut F,
) -> Result<Vec<u8>, Fault<'a>>
    ensures said { IsTrue F.TELLS
        → IfOk result (λ bytes. HoldsShort (F.store files.old).contents path.now bytes.items) }
    ensures refused { IsTrue F.TELLS → IfErr result (NoExecutable (F.store files.old).contents path.now) }
    ensures calm { OnOk result (F.store files.new ≡ F.store files.old) }
    ensures counted { IfErr result (λ fault. IsReadBy fault (F.store files.old) (F.store files.new)) }
{
    let bytes = bytes_of(alloc, path, LONGEST_FILE + 1, files)?;
    if bytes.len() > LONGEST_FILE {
        return Err(Fault::Elf(ElfFault::File {
            rule: ElfRule::Ranges,
            at: LONGEST_FILE,
        }));
    }
    Ok(bytes)
}

/// The line of what begins at an address of a program's code, as in a listing; nothing where nothing does.
pub fn line_of_program(
    alloc: Global,
    program: &Program<'_>,
    address: u32,
) -> Result<Vec<u8>, AllocError>
    ensures { IfOk result (λ line. IsLineOrNothing program.now address line.items) }
{
    match encoding_at(alloc, program, address)? {
        Some(encoding) => encoding_line(alloc, address, encoding),
        None => Ok(Vec::new(alloc)),
    }
}
