ghost use Rattle.std.specs.Prelude.{◌≡◌, ℕ, ◌<◌, ◌≤◌, ◌++◌, Bool, List, length, take, IsTrue, IfOk, OnOk, OnErr};
ghost use Rattle.streams.specs.Streams.{GainsPart};
ghost use Rattle.word.specs.Counts.{one_more};

/// A call of a sink failed.
#[derive(Clone, Copy, Debug, PartialEq, Eq)]
pub struct SinkFault;

/// A writer of bytes. It has a view: the bytes that it has taken, and how many of its calls have
/// failed, a count that stays at 2^64 - 1.
pub trait Sink: Drop {
    /// Whether the bytes that it has taken are known. Where this is false, as for a file, the
    /// clauses on bytes say nothing.
    const TELLS: bool;

    ghost TELLS: { Bool };

    ghost taken: { Self → List ℕ };

    ghost failures: { Self → ℕ };

    /// Takes some of the bytes, from their beginning, and answers how many: at least one, where
    /// there is one.
    fn put(&mut self, bytes: &[u8]) -> Result<usize, SinkFault>
        ensures some { 0 < length bytes.now → IfOk result (λ count. 1 ≤ count) }
        ensures within { 0 < length bytes.now → IfOk result (λ count. count ≤ length bytes.now) }
        ensures takes { IsTrue TELLS → 0 < length bytes.now
            → IfOk result (λ count. taken self.new ≡ taken self.old ++ take count bytes.now) }
        ensures refuses { IsTrue TELLS → OnErr result (taken self.new ≡ taken self.old) }
        ensures calm { OnOk result (failures self.new ≡ failures self.old) }
        ensures counts { OnErr result (failures self.new ≡ one_more (failures self.old)) };
}

/// Hands all the bytes to the sink, in order. Where a call fails it is not tried again, and some of
/// the bytes are left.
pub fn put_all<S: Sink>(sink: &mut S, bytes: &[u8]) -> Result<(), SinkFault>
    ensures whole { IsTrue S.TELLS → OnOk result (S.taken sink.new ≡ S.taken sink.old ++ bytes.now) }
    ensures calm { OnOk result (S.failures sink.new ≡ S.failures sink.old) }
    ensures beginning { IsTrue S.TELLS
        → OnErr result (GainsPart (S.taken sink.old) (S.taken sink.new) bytes.now) }
    ensures counts { OnErr result (S.failures sink.new ≡ one_more (S.failures sink.old)) }
{
    let mut put = 0usize;
    while put < bytes.len() {
        put += sink.put(&bytes[put..])?;
    }
    Ok(())
}
