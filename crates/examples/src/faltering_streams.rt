// Streams that move few bytes a call, or fail at a call: all bytes are moved, or none behind that call.

ghost use Rattle.std.specs.Prelude.{◌≤◌};

use hepurita::build;
use input_files::stream_build::{BuildFault, build_stream};
use std::alloc::{AllocError, Global};
use std::process::Abort;
use std::test::Fail;
use streams::{ByteSink, ByteSource, Faltering, ReadFault, SinkFault, get_up_to, put_all};

const BYTES: &[u8] = b"secret and public";

/// A source of these bytes that moves so many a call, and of which the call after so many good ones fails.
fn source(
    alloc: Global,
    bytes: &[u8],
    piece: usize,
    good_calls: Option<u64>,
) -> Result<Faltering<ByteSource>, AllocError>
    requires { 1 ≤ piece }
{
    Ok(Faltering {
        stream: ByteSource::new(Vec::from_slice(alloc, bytes)?),
        piece,
        good_calls,
        failures: 0,
    })
}

/// A sink that has taken nothing, and moves bytes alike.
fn sink(alloc: Global, piece: usize, good_calls: Option<u64>) -> Faltering<ByteSink>
    requires { 1 ≤ piece }
{
    Faltering {
        stream: ByteSink::new(alloc),
        piece,
        good_calls,
        failures: 0,
    }
}

#[test]
fn moves_all_bytes_in_pieces(rt: HostRuntime) -> Result<(), Fail> {
    for piece in 1..6 {
        let mut source = source(rt.alloc(), BYTES, piece, None)?;
        let bytes = get_up_to(rt.alloc(), &mut source, 100)?;
        let mut sink = sink(rt.alloc(), piece, None);
        assert!(&rt; put_all(&mut sink, bytes.as_slice()).is_ok());
        assert_eq!(&rt; sink.stream.as_slice(), BYTES);
    }
    Ok(())
}

#[test]
fn fails_once_where_the_sink_does(rt: HostRuntime) {
    let mut sink = sink(rt.alloc(), 3, Some(2));
    assert_eq!(rt; put_all(&mut sink, BYTES), Err(SinkFault));
    assert_eq!(rt; sink.stream.as_slice(), b"secret".as_slice());
    assert_eq!(rt; sink.failures, 1);
}

#[test]
fn fails_once_where_the_source_does(rt: HostRuntime) -> Result<(), Fail> {
    let mut source = source(rt.alloc(), BYTES, 3, Some(2))?;
    let read = get_up_to(rt.alloc(), &mut source, 100);
    assert_eq!(rt; read.err(), Some(ReadFault::Source));
    assert_eq!(rt; source.failures, 1);
    Ok(())
}

const ADDS: &str = "export secret uint32 f(secret uint32 x) { return x + 1; }";

/// A build of the text, a byte a call, where the read or the write after so many good ones fails, ends so, and so many
/// bytes of the image go out.
fn builds(
    rt: &(impl Abort + AllocGlobal),
    good_reads: Option<u64>,
    good_writes: Option<u64>,
    answer: &str,
    length: usize,
) -> Result<(), AllocError> {
    let mut source = source(rt.alloc(), ADDS.as_bytes(), 1, good_reads)?;
    let mut sink = sink(rt.alloc(), 1, good_writes);
    let told = match build_stream(rt.alloc(), &mut source, &mut sink) {
        Ok(()) => "built",
        Err(BuildFault::Read) => "read",
        Err(BuildFault::Write) => "write",
        Err(_) => "refused",
    };
    assert_eq!(rt; told, answer);
    let image = build(rt.alloc(), ADDS).expect(rt, "an accepted text");
    let image = image.as_slice();
    let length = if length < image.len() {
        length
    } else {
        image.len()
    };
    assert_eq!(rt; sink.stream.as_slice(), &image[..length]);
    Ok(())
}

#[test]
fn a_build_goes_out_or_names_what_failed(rt: HostRuntime) -> Result<(), Fail> {
    builds(&rt, None, None, "built", usize::MAX)?;
    builds(&rt, Some(3), None, "read", 0)?;
    // the call that finds the end
    builds(&rt, Some(57), None, "read", 0)?;
    builds(&rt, None, Some(0), "write", 0)?;
    builds(&rt, None, Some(35), "write", 35)?;
    Ok(())
}
