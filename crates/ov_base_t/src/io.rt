//! Pieces, faults, short writes and files.
ghost use Rattle.std.specs.Prelude.{◌≡◌, ◌⊎◌, take, IfOk, OnErr};
ghost use Rattle.std.specs.Io.KnownBytes.{Appends, Consumes};
ghost use Rattle.ov_base.specs.Causes.{Rose};

use ov_base::Octets;
use ov_io::{
    Fault, FileSink, FileSource, MemSink, MemSource, MemStream, Sink, Source, StdSink, StdSource,
    StdStream, Stream,
};
use std::alloc::Global;
use std::fs;
use std::io::{self, Cursor, ErrorKind, Read, Write};
use std::process::Abort;
use std::test::Fail;

// Sends back what one take gives. Its clauses need the laws of a stream.
fn echo<L: Stream>(stream: &mut L, buf: &mut [u8]) -> Result<usize, Fault>
    ensures read { IfOk result (λ n. Consumes (L.Source.tells.left stream.old)
        (L.Source.tells.left stream.new) (take n buf.new)) }
    ensures written { IfOk result (λ n. Appends (L.Sink.tells.written stream.old)
        (L.Sink.tells.written stream.new) (take n buf.new)) }
    ensures cause { OnErr result
        (Rose (L.Source.tells.faults stream.old) (L.Source.tells.faults stream.new)
        ⊎ Rose (L.Sink.tells.faults stream.old) (L.Sink.tells.faults stream.new)) }
    ensures same { (L.Source.tells.borrow stream.new ≡ L.Source.tells.borrow stream.old)
        × (L.Sink.tells.borrow stream.new ≡ L.Sink.tells.borrow stream.old) }
{
    let count = stream.take(buf)?;
    let (front, _) = buf.split_at(count);
    stream.put(front)?;
    Ok(count)
}

// A stream with five bytes, which come two at a time. Its second take fails, and its second put. No
// clause says so, so that no proof computes what comes of it.
fn stream_of(alloc: Global) -> Result<MemStream, Fail> {
    let bytes = Octets::copy(alloc, b"hello")?;
    let source = MemSource::new(bytes, 2, Octets::copy(alloc, &[1])?);
    let sink = MemSink::new(alloc, Octets::copy(alloc, &[1])?);
    Ok(MemStream { source, sink })
}

// The first pieces, with the faults between them.
fn expect_pieces<L: Stream>(rt: &impl Abort, stream: &mut L, buf: &mut [u8; 4]) {
    assert_eq!(rt; echo(stream, buf), Ok(2));
    assert_eq!(rt; *buf, *b"he\0\0");
    assert!(rt; stream.take(buf).is_err());
    assert!(rt; stream.put(b"x").is_err());
    assert_eq!(rt; echo(stream, buf), Ok(2));
}

#[test]
fn in_memory(rt: HostRuntime) -> Result<(), Fail> {
    let mut buf = [0u8; 4];
    let mut stream = stream_of(rt.alloc())?;
    expect_pieces(&rt, &mut stream, &mut buf);
    assert_eq!(rt; echo(&mut (&mut stream), &mut buf), Ok(1));
    assert_eq!(rt; stream.take(&mut buf), Ok(0));
    assert!(rt; stream.put(b", hello").is_ok());
    assert_eq!(rt; stream.sink.written(), b"hello, hello".as_slice());
    Ok(())
}

// Reads and writes one byte in a call, and fails the second call.
#[derive(Drop)]
struct Halting {
    calls: u8,
}

impl Halting {
    fn call(&mut self) -> io::Result<()> {
        self.calls = self.calls.saturating_add(1);
        if self.calls == 2 {
            return Err(io::Error::from(ErrorKind::Other));
        }
        Ok(())
    }
}

impl Read for Halting {
    fn read(&mut self, buf: &mut [u8]) -> io::Result<usize> {
        self.call()?;
        if buf.is_empty() {
            return Ok(0);
        }
        buf[0] = b'x';
        Ok(1)
    }
}

impl Write for Halting {
    fn write(&mut self, buf: &[u8]) -> io::Result<usize> {
        self.call()?;
        Ok(buf.len().min(1))
    }

    fn flush(&mut self) -> io::Result<()> {
        Ok(())
    }
}

#[test]
fn over_readers_and_writers(rt: HostRuntime) {
    let mut buf = [0u8; 4];
    let mut source = StdSource::new(Cursor::new(b"abc".as_slice()));
    assert_eq!(rt; source.take(&mut buf), Ok(3));
    assert_eq!(rt; source.take(&mut buf), Ok(0));
    let mut source = StdSource::new(Halting { calls: 0 });
    assert_eq!(rt; source.take(&mut buf), Ok(1));
    assert!(rt; source.take(&mut buf).is_err());
    assert_eq!(rt; source.take(&mut buf), Ok(1));
    let mut sink = StdSink::new(Halting { calls: 0 });
    assert!(rt; sink.put(b"ab").is_err());
    assert!(rt; sink.put(b"abcd").is_ok());
    let mut stream = StdStream::new(Halting { calls: 0 });
    assert!(rt; stream.put(b"a").is_ok());
    assert!(rt; stream.take(&mut buf).is_err());
    assert_eq!(rt; echo(&mut stream, &mut buf), Ok(1));
}

// Makes sure that a take gives so many bytes, and of a buffer of zeros makes these.
fn expect_take<S: Source>(rt: &impl Abort, source: &mut S, count: usize, want: &[u8; 8]) {
    let mut buf = [0u8; 8];
    assert_eq!(rt; source.take(&mut buf), Ok(count));
    assert_eq!(rt; buf, *want);
}

#[test]
fn a_file_that_is_missing_then_grows_and_a_folder(rt: HostRuntime) -> Result<(), Fail> {
    let path = "a_file_that_grows.bytes";
    let mut source = FileSource::new(rt, path)?;
    assert!(rt; source.take(&mut [0u8; 8]).is_err());
    fs::write(&rt, path, b"hello".as_slice())?;
    expect_take(&rt, &mut source, 5, b"hello\0\0\0");
    expect_take(&rt, &mut source, 0, &[0; 8]);
    fs::write(&rt, path, b"hello, you".as_slice())?;
    expect_take(&rt, &mut source, 5, b", you\0\0\0");
    fs::remove_file(&rt, path)?;
    let path = "a_folder";
    fs::create_dir(&rt, path)?;
    let mut source = FileSource::new(rt, path)?;
    let read = source.take(&mut [0u8; 8]);
    fs::remove_dir(&rt, path)?;
    assert!(rt; read.is_err());
    Ok(())
}

#[test]
fn a_file_that_is_made_anew_and_a_folder(rt: HostRuntime) -> Result<(), Fail> {
    let path = "a_file_of_another_run.bytes";
    let mut buf = [0u8; 8];
    fs::write(&rt, path, b"stale, and long".as_slice())?;
    let mut sink = FileSink::new(rt, path)?;
    let mut source = FileSource::new(rt, path)?;
    assert_eq!(rt; source.take(&mut buf), Ok(8));
    assert_eq!(rt; buf, *b"stale, a");
    assert!(rt; sink.put(b"ab").is_ok());
    assert!(rt; sink.put(b"cd").is_ok());
    let mut source = FileSource::new(rt, path)?;
    assert_eq!(rt; source.take(&mut buf), Ok(4));
    assert_eq!(rt; buf, *b"abcde, a");
    fs::remove_file(&rt, path)?;
    let path = "another_folder";
    fs::create_dir(&rt, path)?;
    let mut sink = FileSink::new(rt, path)?;
    let put = sink.put(b"ab");
    fs::remove_dir(&rt, path)?;
    assert!(rt; put.is_err());
    Ok(())
}
