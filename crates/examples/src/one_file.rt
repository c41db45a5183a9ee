// Commands on files of which it is known what they hold, as those of a system never are: what the commands promise of
// files can be met, and comes about.

ghost use Rattle.std.specs.Prelude.{true, Some, None, if◌then◌else◌};
ghost use Rattle.std.specs.Str.{bytes_eq};
ghost use Rattle.std.specs.String.{string_bytes};

use crate::counted_streams::{CountedSink, CountedSource};
use commands::{Files, command};
use std::alloc::Global;
use std::process::Abort;
use std::test::Fail;
use streams::{ByteSink, ByteSource, SinkFault, SourceFault, put_all};

/// Files of which there is one, in memory: what it holds is known. No other can be written.
#[derive(Drop)]
struct OneFile {
    alloc: Global,
    path: String,
    file: ByteSink,
    failures: u64,
}

impl Files for OneFile {
    type Source = CountedSource;

    type Sink = CountedSink;

    ghost TELLS = { true };

    ghost store = { λ f. record {
      contents = λ path. if bytes_eq path (string_bytes f.path) then Some f.file.bytes else None;
      failures = f.failures;
    } };

    fn open(&mut self, path: &str) -> Result<CountedSource, SourceFault> {
        if path == self.path.as_str() {
            if let Ok(bytes) = Vec::from_slice(self.alloc, self.file.as_slice()) {
                return Ok(CountedSource::new(ByteSource::new(bytes)));
            }
        }
        self.failures = self.failures.saturating_add(1);
        Err(SourceFault)
    }

    fn close(&mut self, source: CountedSource) {
        self.failures = self.failures.saturating_add(source.failures());
    }

    fn create(&mut self, path: &str) -> Result<CountedSink, SinkFault> {
        if path != self.path.as_str() {
            self.failures = self.failures.saturating_add(1);
            return Err(SinkFault);
        }
        self.file = ByteSink::new(self.alloc);
        Ok(CountedSink::new(ByteSink::new(self.alloc)))
    }

    fn is_one_file(&self, one: &str, other: &str) -> bool {
        one == other
    }

    fn finish(&mut self, path: &str, sink: CountedSink) {
        self.failures = self.failures.saturating_add(sink.failures());
        if path == self.path.as_str() {
            self.file = sink.into_inner();
        }
    }
}

/// A command on the one file that there is answers this status.
fn answers(rt: &(impl Abort + AllocGlobal), files: &mut OneFile, words: &[&str], status: u8) {
    let mut out = ByteSink::new(rt.alloc());
    let mut err = ByteSink::new(rt.alloc());
    assert_eq!(rt;
        command(rt.alloc(), words, files, &mut out, &mut err),
        status
    );
}

const TEXT: &[u8] = b"export public uint32 f() { return 1; }";

#[test]
fn a_text_stays_where_its_image_would_take_its_place(rt: HostRuntime) -> Result<(), Fail> {
    let mut files = OneFile {
        alloc: rt.alloc(),
        path: String::from_str(rt.alloc(), "it")?,
        file: ByteSink::new(rt.alloc()),
        failures: 0,
    };
    assert!(&rt; put_all(&mut files.file, TEXT).is_ok());
    answers(&rt, &mut files, &["factc", "build", "it", "other"], 3);
    answers(&rt, &mut files, &["factc", "build", "it", "it"], 2);
    assert_eq!(rt; files.file.as_slice(), TEXT);
    answers(&rt, &mut files, &["factc", "eval", "it"], 0);
    answers(&rt, &mut files, &["factc", "run", "it"], 1);
    answers(&rt, &mut files, &["factc", "run", "other"], 3);
    Ok(())
}
