//! Streams that announce much and bring little.
use ov_base::Octets;
use ov_io::MemSource;
use ov_script::{Next, Script};
use ov_wire::Decoder;
use std::alloc::Global;
use std::test::Fail;

// The length field of the longest frame, and the frame's first bytes.
const BEGUN_FRAME: &[u8] = b"\x01\x01\x00\x00\x04\x00\x00\x00";

// A file that announces the most bytes that a file may have, and has five.
const BEGUN_FILE: &[u8] = b"create f - 16777216\nhello";

/// Feeds this many decoders the front of a longest frame, and keeps them all: how many bytes wait
/// there.
pub fn frames(alloc: Global, count: u32) -> Result<u64, Fail> {
    let mut decoders = Vec::new(alloc);
    let mut whole = Vec::new(alloc);
    for _ in 0..count {
        let mut decoder = Decoder::new(alloc)?;
        decoder.feed(BEGUN_FRAME, &mut whole)?;
        decoders.push(decoder)?;
    }
    let mut waiting = 0u64;
    for decoder in &decoders {
        waiting = waiting.saturating_add(decoder.pending());
    }
    Ok(waiting)
}

/// Begins to read this many scripts that end inside a file, and keeps them all: how many are bad
/// there.
pub fn scripts(alloc: Global, count: u32) -> Result<u64, Fail> {
    let mut kept = Vec::new(alloc);
    let mut bad = 0u64;
    for _ in 0..count {
        let bytes = Octets::copy(alloc, BEGUN_FILE)?;
        let mut script = Script::new(alloc, MemSource::new(bytes, 7, Octets::new(alloc)))?;
        if let Ok(Next::BadLine { line: 1 }) = script.next() {
            bad = bad.saturating_add(1);
        }
        kept.push(script)?;
    }
    Ok(bad)
}
