//! A peer behind a stream in memory.
use crate::case::Case;
use crate::texts::{number_of, shown, words_of};
use ov_base::Octets;
use ov_io::{MemSink, MemSource, MemStream, Source};
use ov_peer::Peer;
use ov_session::NetPeer;
use std::alloc::Global;
use std::test::Fail;

// A stream of these bytes in pieces of this size, some of whose calls fail.
fn stream_of(alloc: Global, case: &Case, bytes: Vec<u8>, piece: usize) -> Result<MemStream, Fail> {
    if piece == 0 {
        return Err(Fail::from("pieces have a size"));
    }
    let takes = Octets::copy(alloc, &case.failing_takes)?;
    let puts = Octets::copy(alloc, &case.failing_puts)?;
    Ok(MemStream {
        source: MemSource::new(Octets::from_vec(bytes), piece, takes),
        sink: MemSink::new(alloc, puts),
    })
}

// What comes of a request to any peer, over a reply that was there before.
fn asked<P: Peer>(
    alloc: Global,
    peer: &mut P,
    request: &[u8],
    reply: &mut Vec<u8>,
) -> Result<String, Fail> {
    if 1 <= request.len() && request.len() <= 1000 {
        let result = peer.ask(request, reply);
        let reply = shown(alloc, reply)?;
        Ok(match result {
            Ok(()) => format!(in alloc; "ok, {reply}")?,
            Err(fault) => format!(in alloc; "{fault:?}, {reply}")?,
        })
    } else {
        Err(Fail::from("a request was expected"))
    }
}

// Prints what comes of each request.
fn print_asks<P: Peer>(rt: &HostRuntime, peer: &mut P, requests: &str) -> Result<(), Fail> {
    let mut reply = Vec::from_array(rt.alloc(), [9, 9])?;
    for words in requests.split(" / ") {
        let request = words_of(rt.alloc(), words)?;
        let came = asked(rt.alloc(), peer, &request, &mut reply)?;
        println!(rt; "ask {words}: {came}")?;
    }
    Ok(())
}

// How many bytes a source still has.
fn left_in<S: Source>(alloc: Global, source: &mut S) -> Result<String, Fail> {
    let mut late = [0; 64];
    match source.take(&mut late) {
        Ok(count) => shown(alloc, late.get(..count).unwrap_or(b"")),
        Err(_) => Err(Fail::from("no fault was expected")),
    }
}

// Prints what comes of each request to a peer behind this stream, what was written to it, and what
// it has left then.
fn print_over(rt: &HostRuntime, stream: MemStream, requests: &str) -> Result<(), Fail> {
    let mut peer = NetPeer::new(stream)?;
    print_asks(rt, &mut peer, requests)?;
    let mut stream = peer.into_link();
    let wrote = shown(rt.alloc(), stream.sink.written())?;
    let left = left_in(rt.alloc(), &mut stream)?;
    println!(rt; "  wrote {wrote}, left {left}")?;
    Ok(())
}

/// Prints what comes of requests to a peer behind a stream that has the case's replies as they are,
/// in pieces of this size.
pub fn print_link(rt: &HostRuntime, case: &Case, rest: &str) -> Result<(), Fail> {
    let (piece, requests) = rest.split_once(' ').ok_or("a size, and requests")?;
    let piece = number_of(piece)?;
    let mut bytes = Vec::new(rt.alloc());
    for reply in &case.replies {
        bytes.extend_from_slice(reply.as_slice())?;
    }
    let stream = stream_of(rt.alloc(), case, bytes, piece)?;
    print_over(rt, stream, requests)
}
