// The bytes of a file.

ghost use Rattle.std.specs.Prelude.{◌≡◌, IsTrue, IfOk, IfErr, OnOk};
ghost use Rattle.commands.specs.Contents.{BeginsFile};
ghost use Rattle.commands.specs.Failures.{IsReadBy};
ghost use Rattle.commands.specs.Unread.{NotRead};

use crate::fault::{Fault, FileFault};
use crate::files::Files;
use language::Refusal;
use std::alloc::Global;
use streams::{ReadFault, get_up_to};

/// The bytes of a file, to their end or until there are `limit` of them.
pub fn bytes_of<'a, F: Files>(
    alloc: Global,
    path: &'a str,
    limit: usize,
    files: &mut F,
) -> Result<Vec<u8>, Fault<'a>>
    ensures begins { IsTrue F.TELLS
        → IfOk result (λ bytes. BeginsFile (F.store files.old).contents path.now limit bytes.items) }
    ensures fault { IfErr result (NotRead path.now) }
    ensures calm { OnOk result (F.store files.new ≡ F.store files.old) }
    ensures counted { IfErr result (λ fault. IsReadBy fault (F.store files.old) (F.store files.new)) }
{
    let Ok(mut source) = files.open(path) else {
        return Err(Fault::File(FileFault::CannotRead(path)));
    };
    let bytes = get_up_to(alloc, &mut source, limit);
    files.close(source);
    match bytes {
        Ok(bytes) => Ok(bytes),
        Err(ReadFault::Source) => Err(Fault::File(FileFault::CannotRead(path))),
        Err(ReadFault::Memory) => Err(Fault::Text(Refusal::memory())),
    }
}
