ghost use Rattle.std.specs.Prelude.{◌≡◌, ◌+◌, List, ℕ, [], drop, length, true};
ghost use Rattle.streams.specs.Streams.{Collected};
ghost use Rattle.word.specs.Counts.{one_more};

use super::{Sink, SinkFault, Source, SourceFault};
use std::alloc::Global;
use std::marker::Model;

/// A sink that keeps what it takes. A call fails only where memory for the bytes was refused.
#[derive(Drop)]
pub struct ByteSink {
    bytes: Vec<u8>,
    failures: u64,
}

impl Model for ByteSink {
    ghost Value = { Collected };

    ghost view = { λ s. record { bytes = s.bytes.items; failures = s.failures } };
}

impl ByteSink {
    /// One that has taken nothing.
    pub fn new(alloc: Global) -> Self
        ensures bytes { result.bytes ≡ [] }
        ensures failures { result.failures ≡ 0 }
    {
        ByteSink {
            bytes: Vec::new(alloc),
            failures: 0,
        }
    }

    /// What it has taken.
    pub fn as_slice(&self) -> &[u8]
        ensures { result.now ≡ self.now.bytes }
    {
        self.bytes.as_slice()
    }
}

impl Sink for ByteSink {
    ghost use Rattle.std.specs.Prelude.{true};

    const TELLS: bool = true;

    ghost TELLS = { true };

    ghost taken = { λ s. s.bytes };

    ghost failures = { λ s. s.failures };

    fn put(&mut self, bytes: &[u8]) -> Result<usize, SinkFault> {
        match self.bytes.extend_from_slice(bytes) {
            Ok(()) => Ok(bytes.len()),
            Err(_) => {
                self.failures = self.failures.saturating_add(1);
                Err(SinkFault)
            }
        }
    }
}

/// A source that hands out bytes that it has. No call of it fails.
#[derive(Drop)]
pub struct ByteSource {
    bytes: Vec<u8>,
    read: usize,
}

impl Model for ByteSource {
    ghost use Rattle.std.specs.Prelude.{◌≤◌, List, ℕ, drop, vec_len};

    ghost Value = { List ℕ };

    ghost view = { λ s. drop s.read s.bytes.items };

    ghost invariant = { λ s. s.read ≤ vec_len s.bytes };
}

impl ByteSource {
    /// One that hands out these bytes.
    pub fn new(bytes: Vec<u8>) -> Self
        ensures { result ≡ bytes.items }
    {
        ByteSource { bytes, read: 0 }
    }
}

impl Source for ByteSource {
    ghost use Rattle.std.specs.Prelude.{true};

    const TELLS: bool = true;

    ghost TELLS = { true };

    ghost coming = { λ s. s };

    ghost failures = { λ _. 0 };

    fn get(&mut self, buffer: &mut [u8]) -> Result<usize, SourceFault> {
        let left = &self.bytes[self.read..];
        let count = buffer.len().min(left.len());
        buffer[..count].copy_from_slice(&left[..count]);
        self.read += count;
        Ok(count)
    }
}
