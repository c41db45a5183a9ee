// Streams in memory that say how many of their calls have failed.

ghost use Rattle.std.specs.Prelude.{◌≡◌, ◌≤◌, [], true};

use streams::{ByteSink, ByteSource, Faltering, Sink, SinkFault, Source, SourceFault};

#[derive(Drop)]
pub struct CountedSource {
    inner: Faltering<ByteSource>,
}

impl CountedSource {
    pub fn new(stream: ByteSource) -> Self
        ensures stream { result.inner.stream ≡ stream }
        ensures failures { result.inner.failures ≡ 0 }
    {
        let inner = Faltering {
            stream,
            piece: usize::MAX,
            good_calls: None,
            failures: 0,
        };
        CountedSource { inner }
    }

    pub fn failures(&self) -> u64
        ensures { result ≡ self.now.inner.failures }
    {
        self.inner.failures
    }
}

impl Source for CountedSource {
    const TELLS: bool = true;

    ghost TELLS = { true };

    ghost coming = { λ s. s.inner.stream };

    ghost failures = { λ s. s.inner.failures };

    fn get(&mut self, buffer: &mut [u8]) -> Result<usize, SourceFault> {
        self.inner.get(buffer)
    }
}

#[derive(Drop)]
pub struct CountedSink {
    inner: Faltering<ByteSink>,
}

impl CountedSink {
    pub fn new(stream: ByteSink) -> Self
        ensures stream { result.inner.stream ≡ stream }
        ensures failures { result.inner.failures ≡ 0 }
    {
        let inner = Faltering {
            stream,
            piece: usize::MAX,
            good_calls: None,
            failures: 0,
        };
        CountedSink { inner }
    }

    pub fn failures(&self) -> u64
        ensures { result ≡ self.now.inner.failures }
    {
        self.inner.failures
    }

    pub fn into_inner(self) -> ByteSink
        ensures { result ≡ self.inner.stream }
    {
        let CountedSink { inner } = self;
        inner.stream
    }
}

impl Sink for CountedSink {
    const TELLS: bool = true;

    ghost TELLS = { true };

    ghost taken = { λ s. s.inner.stream.bytes };

    ghost failures = { λ s. s.inner.failures };

    fn put(&mut self, bytes: &[u8]) -> Result<usize, SinkFault> {
        self.inner.put(bytes)
    }
}
