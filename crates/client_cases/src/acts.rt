//! What the client's program does, by its words.
use crate::case::Case;
use crate::peers::{Replying, peer_of};
use crate::texts::{lines_of, shown};
use ov_acts::{act, read_job};
use ov_base::Octets;
use ov_io::{MemSink, MemSource, Sink, Source};
use ov_peer::Peer;
use std::alloc::Global;
use std::test::Fail;

/// The longest piece in which a file comes.
const PIECE: usize = 100_000;

// A source of these bytes, which fails at these calls.
fn source_of(alloc: Global, bytes: Vec<u8>, fails: &[u8]) -> Result<MemSource, Fail> {
    let fails = Octets::copy(alloc, fails)?;
    Ok(MemSource::new(Octets::from_vec(bytes), PIECE, fails))
}

// The words of a line.
fn words_of(alloc: Global, line: &str) -> Result<Vec<String>, Fail> {
    let mut words = Vec::new(alloc);
    for word in line.split(' ') {
        words.push(String::from_str(alloc, word)?)?;
    }
    Ok(words)
}

// The status of the job that these words say.
fn status_of<K: Source, B: Source, O: Sink, P: Peer>(
    alloc: Global,
    words: &[String],
    keys: &mut K,
    body: &mut B,
    out: &mut O,
    peer: &mut P,
) -> u8 {
    match read_job(alloc, words) {
        Ok(job) => act(alloc, &job, keys, body, out, peer),
        Err(status) => status,
    }
}

// The status of a job over the case's files.
fn acted<O: Sink>(
    alloc: Global,
    case: &Case,
    words: &[String],
    out: &mut O,
    peer: &mut Replying,
) -> Result<u8, Fail> {
    let mut keys = source_of(alloc, case.keys.to_vec(alloc)?, &case.failing_keys)?;
    let bytes = vec![in alloc; b'x'; case.length]?;
    let mut body = source_of(alloc, bytes, &case.failing_takes)?;
    Ok(status_of(alloc, words, &mut keys, &mut body, out, peer))
}

/// Prints the status of the job that a line says, what it prints, and all frames.
pub fn print_act(rt: &HostRuntime, case: &Case, line: &str) -> Result<(), Fail> {
    let alloc = rt.alloc();
    let words = words_of(alloc, line)?;
    let mut peer = peer_of(alloc, case)?;
    let mut out = MemSink::new(alloc, Octets::copy(alloc, &case.failing_puts)?);
    let status = acted(alloc, case, &words, &mut out, &mut peer)?;
    let text = lines_of(alloc, out.written())?;
    let frames = shown(alloc, peer.sink.written())?;
    println!(rt; "overctl {line}\n{text}  status {status}, frames {frames}")?;
    Ok(())
}
