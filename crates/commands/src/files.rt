ghost use Rattle.std.specs.Prelude.{◌≡◌, ◌≢◌, [], Bool, Some, None, IsTrue, IfOk, OnOk, OnErr};
ghost use Rattle.commands.specs.Contents.{Store, failed, failed_times, IsWritten};

use streams::{Sink, SinkFault, Source, SourceFault};

/// Files by their paths. They have a view: what they hold, and how many calls of them have failed, a count that stays
/// at 2^64 - 1. In it are the failed calls of a source or a sink once that is handed back.
pub trait Files {
    type Source: Source;

    type Sink: Sink;

    /// Whether it is known what the files hold. Where this is false, as for those of a system, the clauses on
    /// what they hold say nothing.
    ghost TELLS: { Bool };

    ghost store: { Self → Store };

    /// A file, to be read from its beginning.
    fn open(&mut self, path: &str) -> Result<Self::Source, SourceFault>
        ensures told { IsTrue TELLS → OnOk result (IsTrue Self.Source.TELLS) }
        ensures opens { IsTrue TELLS
            → IfOk result (λ source. (store self.old).contents path.now ≡ Some (Self.Source.coming source)) }
        ensures fresh { IfOk result (λ source. Self.Source.failures source ≡ 0) }
        ensures calm { OnOk result (store self.new ≡ store self.old) }
        ensures counts { OnErr result (store self.new ≡ failed (store self.old)) };

    /// Takes back a source, whether it was read to its end or not.
    fn close(&mut self, source: Self::Source)
        ensures { store self.new ≡ failed_times (Self.Source.failures source) (store self.old) };

    /// A file, emptied or made anew, to be written. No other file changes.
    fn create(&mut self, path: &str) -> Result<Self::Sink, SinkFault>
        ensures told { IsTrue TELLS → OnOk result (IsTrue Self.Sink.TELLS) }
        ensures empty { IsTrue TELLS → IfOk result (λ sink. Self.Sink.taken sink ≡ []) }
        ensures emptied { IsTrue TELLS
            → OnOk result (IsWritten path.now [] (store self.old).contents (store self.new).contents) }
        ensures fresh { IfOk result (λ sink. Self.Sink.failures sink ≡ 0) }
        ensures calm { OnOk result ((store self.new).failures ≡ (store self.old).failures) }
        ensures counts { OnErr result (store self.new ≡ failed (store self.old)) };

    /// Takes back the sink of the file that was created at a path: the file holds what the sink has taken, also where
    /// a call of it failed. No other file changes.
    fn finish(&mut self, path: &str, sink: Self::Sink)
        ensures holds { IsTrue TELLS → (store self.old).contents path.now ≢ None
            → IsWritten path.now (Self.Sink.taken sink) (store self.old).contents (store self.new).contents }
        ensures counts { (store self.new).failures
            ≡ (failed_times (Self.Sink.failures sink) (store self.old)).failures };

    /// Whether two paths lead to one file, as far as that can be told. Nothing is promised of the answer.
    fn is_one_file(&self, one: &str, other: &str) -> bool;
}
