ghost use Rattle.std.specs.Prelude.{◌≡◌, ◌≤◌, ◌<◌, ◌++◌, [], length, take, if◌then◌else◌, IsTrue, IsFalse, IsErr, IfOk};
ghost use Rattle.std.specs.Prelude.{OnOk, OnErr};
ghost use Rattle.streams.specs.Streams.{is_due, left_after};
ghost use Rattle.word.specs.Counts.{one_more};

use super::{Sink, SinkFault, Source, SourceFault};

/// Another stream, with at most `piece` bytes a call, and one call that fails of itself. Made for
/// tests of what is done over slow and failing streams.
#[derive(Drop)]
pub struct Faltering<S> {
    pub stream: S,
    pub piece: usize,
    /// How many calls are left before the one that fails; none is to fail where it is `None`.
    pub good_calls: Option<u64>,
    pub failures: u64,
    pub ghost some: { 1 ≤ piece },
}

impl<S> Faltering<S> {
    /// Whether the present call is the one that fails. If so, it is counted.
    fn falters(&mut self) -> bool
        ensures due { result ≡ is_due self.old.good_calls }
        ensures left { self.new.good_calls ≡ left_after self.old.good_calls }
        ensures stream { self.new.stream ≡ self.old.stream }
        ensures piece { self.new.piece ≡ self.old.piece }
        ensures counts { self.new.failures ≡ (if result then one_more self.old.failures else self.old.failures) }
    {
        match self.good_calls {
            None => false,
            Some(0) => {
                self.good_calls = None;
                self.count_failure();
                true
            }
            Some(calls) => {
                self.good_calls = Some(calls - 1);
                false
            }
        }
    }

    fn count_failure(&mut self)
        ensures left { self.new.good_calls ≡ self.old.good_calls }
        ensures stream { self.new.stream ≡ self.old.stream }
        ensures piece { self.new.piece ≡ self.old.piece }
        ensures counts { self.new.failures ≡ one_more self.old.failures }
    {
        self.failures = self.failures.saturating_add(1);
    }
}

impl<S: Sink> Sink for Faltering<S> {
    const TELLS: bool = S::TELLS;

    ghost TELLS = { S.TELLS };

    ghost taken = { λ s. S.taken s.stream };

    ghost failures = { λ s. s.failures };

    /// Fails where this is the call that is to fail, and the stream's own call is then not made.
    /// Else hands at most `piece` bytes on, and fails where the stream does.
    fn put(&mut self, bytes: &[u8]) -> Result<usize, SinkFault>
        ensures due { IsTrue (is_due self.old.good_calls) → IsErr result }
        ensures untouched { IsTrue (is_due self.old.good_calls) → self.new.stream ≡ self.old.stream }
        ensures passed_on { IsFalse (is_due self.old.good_calls) → OnErr result
            (S.failures self.new.stream ≡ one_more (S.failures self.old.stream)) }
        ensures heard { OnOk result (S.failures self.new.stream ≡ S.failures self.old.stream) }
        ensures left { self.new.good_calls ≡ left_after self.old.good_calls }
        ensures kept { self.new.piece ≡ self.old.piece }
        ensures slow { 0 < length bytes.now → IfOk result (λ count. count ≤ self.old.piece) }
        ensures some { 0 < length bytes.now → IfOk result (λ count. 1 ≤ count) }
        ensures within { 0 < length bytes.now → IfOk result (λ count. count ≤ length bytes.now) }
        ensures takes { IsTrue S.TELLS → 0 < length bytes.now
            → IfOk result (λ count. S.taken self.new.stream ≡ S.taken self.old.stream ++ take count bytes.now) }
        ensures refuses { IsTrue S.TELLS → OnErr result (S.taken self.new.stream ≡ S.taken self.old.stream) }
        ensures calm { OnOk result (self.new.failures ≡ self.old.failures) }
        ensures counts { OnErr result (self.new.failures ≡ one_more self.old.failures) }
    {
        if self.falters() {
            return Err(SinkFault);
        }
        let piece = bytes.len().min(self.piece);
        match self.stream.put(&bytes[..piece]) {
            Ok(count) => Ok(count),
            Err(fault) => {
                self.count_failure();
                Err(fault)
            }
        }
    }
}

impl<S: Source> Source for Faltering<S> {
    const TELLS: bool = S::TELLS;

    ghost TELLS = { S.TELLS };

    ghost coming = { λ s. S.coming s.stream };

    ghost failures = { λ s. s.failures };

    /// Fails where this is the call that is to fail, and the stream's own call is then not made.
    /// Else asks for at most `piece` bytes, and fails where the stream does.
    fn get(&mut self, buffer: &mut [u8]) -> Result<usize, SourceFault>
        ensures due { IsTrue (is_due self.old.good_calls) → IsErr result }
        ensures untouched { IsTrue (is_due self.old.good_calls) → self.new.stream ≡ self.old.stream }
        ensures passed_on { IsFalse (is_due self.old.good_calls) → OnErr result
            (S.failures self.new.stream ≡ one_more (S.failures self.old.stream)) }
        ensures heard { OnOk result (S.failures self.new.stream ≡ S.failures self.old.stream) }
        ensures left { self.new.good_calls ≡ left_after self.old.good_calls }
        ensures kept { self.new.piece ≡ self.old.piece }
        ensures slow { IfOk result (λ count. count ≤ self.old.piece) }
        ensures within { IfOk result (λ count. count ≤ length buffer.old) }
        ensures hands_out { IsTrue S.TELLS
            → IfOk result (λ count. S.coming self.old.stream ≡ take count buffer.new ++ S.coming self.new.stream) }
        ensures end { IsTrue S.TELLS → 0 < length buffer.old
            → IfOk result (λ count. count ≡ 0 → S.coming self.old.stream ≡ []) }
        ensures refuses { IsTrue S.TELLS → OnErr result (S.coming self.new.stream ≡ S.coming self.old.stream) }
        ensures calm { OnOk result (self.new.failures ≡ self.old.failures) }
        ensures counts { OnErr result (self.new.failures ≡ one_more self.old.failures) }
    {
        if self.falters() {
            return Err(SourceFault);
        }
        let piece = buffer.len().min(self.piece);
        match self.stream.get(&mut buffer[..piece]) {
            Ok(count) => Ok(count),
            Err(fault) => {
                self.count_failure();
                Err(fault)
            }
        }
    }
}
