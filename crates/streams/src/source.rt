ghost use Rattle.std.specs.Prelude.{◌≡◌, ◌≢◌, ℕ, ◌<◌, ◌≤◌, ◌++◌, ◌-◌, [], false, Bool, List, length, vec_len, take};
ghost use Rattle.std.specs.Prelude.{drop, IsTrue, IfOk, OnOk, OnErr, IsErrOf};
ghost use Rattle.streams.specs.Streams.{LosesPart};
ghost use Rattle.word.specs.Counts.{one_more};
ghost use Rattle.streams.specs.declared.source.ReadFault.TheVariants.{Memory};

use std::alloc::{AllocError, Global};

/// A call of a source failed.
#[derive(Clone, Copy, Debug, PartialEq, Eq)]
pub struct SourceFault;

/// A reader of bytes. It has a view: the bytes that are still to come, and how many of its calls
/// have failed, a count that stays at 2^64 - 1.
pub trait Source: Drop {
    /// Whether the bytes to come are known. Where this is false, as for a file, the clauses on
    /// bytes say nothing.
    const TELLS: bool;

    ghost TELLS: { Bool };

    ghost coming: { Self → List ℕ };

    ghost failures: { Self → ℕ };

    /// Puts some of the bytes to come at the beginning of `buffer`, and answers how many: none only
    /// at the end, unless the buffer has no room.
    fn get(&mut self, buffer: &mut [u8]) -> Result<usize, SourceFault>
        ensures within { IfOk result (λ count. count ≤ length buffer.old) }
        ensures hands_out { IsTrue TELLS
            → IfOk result (λ count. coming self.old ≡ take count buffer.new ++ coming self.new) }
        ensures end { IsTrue TELLS → 0 < length buffer.old
            → IfOk result (λ count. count ≡ 0 → coming self.old ≡ []) }
        ensures refuses { IsTrue TELLS → OnErr result (coming self.new ≡ coming self.old) }
        ensures calm { OnOk result (failures self.new ≡ failures self.old) }
        ensures counts { OnErr result (failures self.new ≡ one_more (failures self.old)) };
}

/// Why a source could not be read.
#[derive(Clone, Copy, Debug, PartialEq, Eq)]
pub enum ReadFault {
    Source,
    Memory,
}

impl From<AllocError> for ReadFault {
    ghost from_gives = { λ _ fault. fault ≡ Memory };

    fn from(_: AllocError) -> Self {
        ReadFault::Memory
    }
}

/// How many bytes one call of a source is asked for.
const PIECE: usize = 4096;

/// Calls the source once, for bytes up to `limit` in all, and answers whether some came.
fn get_more<S: Source>(source: &mut S, bytes: &mut Vec<u8>, limit: usize) -> Result<bool, ReadFault>
    requires { vec_len bytes.old < limit }
    ensures within { vec_len bytes.new ≤ limit }
    ensures more { IfOk result (λ more. IsTrue more → vec_len bytes.old < vec_len bytes.new) }
    ensures moves { IsTrue S.TELLS → OnOk result (bytes.old.items ++ S.coming source.old
        ≡ bytes.new.items ++ S.coming source.new) }
    ensures end { IsTrue S.TELLS
        → IfOk result (λ more. more ≡ false → S.coming source.new ≡ []) }
    ensures part { IsTrue S.TELLS → OnErr result
        (LosesPart (S.coming source.old) (S.coming source.new) (limit - vec_len bytes.old)) }
    ensures calm { result ≢ Err ReadFault.Source → S.failures source.new ≡ S.failures source.old }
    ensures counts { IsErrOf result ReadFault.Source
        → S.failures source.new ≡ one_more (S.failures source.old) }
{
    let mut piece = [0u8; PIECE];
    let room = PIECE.min(limit - bytes.len());
    match source.get(&mut piece[..room]) {
        Ok(count) => {
            bytes.extend_from_slice(&piece[..count])?;
            Ok(count > 0)
        }
        Err(SourceFault) => Err(ReadFault::Source),
    }
}

/// Reads the bytes to come, to their end or until there are `limit` of them. A call that fails is
/// not tried again, and what was read until then is lost.
pub fn get_up_to<S: Source>(
    alloc: Global,
    source: &mut S,
    limit: usize,
) -> Result<Vec<u8>, ReadFault>
    ensures bound { IfOk result (λ bytes. vec_len bytes ≤ limit) }
    ensures whole { IsTrue S.TELLS
        → IfOk result (λ bytes. bytes.items ≡ take limit (S.coming source.old)) }
    ensures rest { IsTrue S.TELLS
        → OnOk result (S.coming source.new ≡ drop limit (S.coming source.old)) }
    ensures part { IsTrue S.TELLS
        → OnErr result (LosesPart (S.coming source.old) (S.coming source.new) limit) }
    ensures calm { result ≢ Err ReadFault.Source → S.failures source.new ≡ S.failures source.old }
    ensures counts { IsErrOf result ReadFault.Source
        → S.failures source.new ≡ one_more (S.failures source.old) }
{
    let mut bytes = Vec::new(alloc);
    while bytes.len() < limit {
        match get_more(source, &mut bytes, limit) {
            Ok(true) => {}
            Ok(false) => break,
            Err(fault) => return Err(fault),
        }
    }
    Ok(bytes)
}
