ghost use Rattle.std.specs.Prelude.{◌≡◌, false, [], None};

use commands::{Files, command};
use std::alloc::{AllocError, Global};
use std::io::{ErrorKind, Read, Write};
use std::os::unix::fs::MetadataExt;
use std::rt::{Env, Files as FileSystem};
use std::{env, fs};
use streams::{Sink, SinkFault, Source, SourceFault, put_all};

/// Runs the program on the process's own words and files, and answers the exit status.
pub fn run<R: Env + FileSystem + AllocGlobal, O: Write + Drop, E: Write + Drop>(
    rt: &R,
    out: O,
    err: E,
) -> u8 {
    let mut out = Unbuffered::new(out);
    let mut err = Unbuffered::new(err);
    match words_of(rt) {
        Ok(words) => match texts_of(rt.alloc(), words.as_slice()) {
            Ok(texts) => command(
                rt.alloc(),
                texts.as_slice(),
                &mut HostFiles { rt, failures: 0 },
                &mut out,
                &mut err,
            ),
            Err(_) => end(&mut err, "refused: M1: memory\n", 4),
        },
        Err(WordsFault::Memory) => end(&mut err, "refused: M1: memory\n", 4),
        Err(WordsFault::NotUtf8) => end(&mut err, "error: an argument is not UTF-8\n", 2),
    }
}

/// Prints a line where it can, and answers the status.
fn end<E: Sink>(err: &mut E, line: &str, status: u8) -> u8
    ensures { result ≡ status }
{
    let _ = put_all(err, line.as_bytes());
    status
}

/// Why the process's words could not be had.
enum WordsFault {
    Memory,
    NotUtf8,
}

fn words_of<R: Env + AllocGlobal>(rt: &R) -> Result<Vec<String>, WordsFault> {
    match env::args(rt) {
        Ok(args) => args.collect(rt.alloc()).map_err(|_| WordsFault::Memory),
        Err(error) if error.kind() == ErrorKind::OutOfMemory => Err(WordsFault::Memory),
        Err(_) => Err(WordsFault::NotUtf8),
    }
}

fn texts_of(alloc: Global, words: &[String]) -> Result<Vec<&str>, AllocError> {
    words.iter().map(|word| word.as_str()).collect(alloc)
}

/// The files of the system.
#[derive(Drop)]
struct HostFiles<'a, R> {
    rt: &'a R,
    failures: u64,
}

impl<R: FileSystem> Files for HostFiles<'_, R> {
    type Source = Unbuffered<R::File>;

    type Sink = Unbuffered<R::File>;

    ghost TELLS = { false };

    ghost store = { λ f. record { contents = λ _. None; failures = f.failures } };

    fn open(&mut self, path: &str) -> Result<Unbuffered<R::File>, SourceFault> {
        match fs::open(self.rt, path) {
            Ok(file) => Ok(Unbuffered::new(file)),
            Err(_) => {
                self.failures = self.failures.saturating_add(1);
                Err(SourceFault)
            }
        }
    }

    fn close(&mut self, source: Unbuffered<R::File>) {
        self.failures = self.failures.saturating_add(source.failures);
    }

    fn create(&mut self, path: &str) -> Result<Unbuffered<R::File>, SinkFault> {
        match fs::create(self.rt, path) {
            Ok(file) => Ok(Unbuffered::new(file)),
            Err(_) => {
                self.failures = self.failures.saturating_add(1);
                Err(SinkFault)
            }
        }
    }

    fn finish(&mut self, _path: &str, sink: Unbuffered<R::File>) {
        self.failures = self.failures.saturating_add(sink.failures);
    }

    fn is_one_file(&self, one: &str, other: &str) -> bool {
        match (fs::metadata(self.rt, one), fs::metadata(self.rt, other)) {
            (Ok(one), Ok(other)) => {
                one.is_file() && one.dev() == other.dev() && one.ino() == other.ino()
            }
            _ => false,
        }
    }
}

/// A reader or writer of the system as a stream. Which bytes move is known to the system alone.
#[derive(Drop)]
struct Unbuffered<T> {
    stream: T,
    failures: u64,
}

impl<T> Unbuffered<T> {
    fn new(stream: T) -> Self
        ensures { result.failures ≡ 0 }
    {
        Unbuffered {
            stream,
            failures: 0,
        }
    }
}

impl<R: Read + Drop> Source for Unbuffered<R> {
    const TELLS: bool = false;

    ghost TELLS = { false };

    ghost coming = { λ _. [] };

    ghost failures = { λ s. s.failures };

    fn get(&mut self, buffer: &mut [u8]) -> Result<usize, SourceFault> {
        match self.stream.read(buffer) {
            Ok(count) => Ok(count),
            Err(_) => {
                self.failures = self.failures.saturating_add(1);
                Err(SourceFault)
            }
        }
    }
}

/// A write of no byte, where there is one, is a failed call.
impl<W: Write + Drop> Sink for Unbuffered<W> {
    const TELLS: bool = false;

    ghost TELLS = { false };

    ghost taken = { λ _. [] };

    ghost failures = { λ s. s.failures };

    fn put(&mut self, bytes: &[u8]) -> Result<usize, SinkFault> {
        match self.stream.write(bytes) {
            Ok(count) if count > 0 || bytes.is_empty() => Ok(count),
            _ => {
                self.failures = self.failures.saturating_add(1);
                Err(SinkFault)
            }
        }
    }
}
