//! Calls that signals interrupt, and writes that take one byte at a time.
use crate::dripping::{Dripping, Written};
use ov_io::{Fault, Sink, Source, StdSink, StdSource};
use ov_retry::Retrying;
use ov_session::Connection;
use std::cell::Cell;
use std::process::Abort;
use std::test::Fail;

/// Nothing was written yet.
fn nothing() -> Written {
    Cell::new(([0; 16], 0))
}

/// These bytes were written, and no others.
fn expect_written(rt: &impl Abort, written: &Written, bytes: &[u8]) {
    let (found, count) = written.get();
    assert_eq!(rt; found.get(..count), Some(bytes));
}

/// The source has these bytes left, one at a time.
fn expect_left<S: Source>(rt: &impl Abort, source: &mut S, bytes: &[u8]) {
    let mut buf = [0u8; 4];
    for byte in bytes {
        assert_eq!(rt; source.take(&mut buf), Ok(1));
        assert_eq!(rt; buf[0], *byte);
    }
    assert_eq!(rt; source.take(&mut buf), Ok(0));
}

#[test]
fn a_connection_goes_on_after_a_signal(rt: HostRuntime) -> Result<(), Fail> {
    let written = nothing();
    let mut link = Connection::new(Dripping::new(b"hello", &written));
    expect_left(&rt, &mut link, b"hello");
    assert_eq!(rt; link.put(b"each byte"), Ok(()));
    expect_written(&rt, &written, b"each byte");
    assert_eq!(rt; link.put(b"and more"), Err(Fault));
    expect_written(&rt, &written, b"each byteand mor");
    Ok(())
}

#[test]
fn standard_streams_go_on_after_a_signal(rt: HostRuntime) -> Result<(), Fail> {
    let written = nothing();
    let socket = Dripping::new(b"hello", &written);
    expect_left(&rt, &mut StdSource::new(Retrying::new(socket)), b"hello");
    let mut sink = StdSink::new(Retrying::new(Dripping::new(b"", &written)));
    assert_eq!(rt; sink.put(b"each byte"), Ok(()));
    assert_eq!(rt; sink.put(b"and more"), Err(Fault));
    expect_written(&rt, &written, b"each byteand mor");
    Ok(())
}
