//! A stream of updates, cut into frames and read.
use ov_base::Octets;
use ov_base::limits::SET_BYTES;
use ov_wire::{Decoder, read_request};
use std::alloc::Global;
use std::test::Fail;

// How many bytes come at once.
const PIECE: usize = 1_400;

// A file of this many bytes makes a frame of 65,536.
const BODY: usize = 65_330;

// Frames of updates, each of which creates a file for nobody.
fn stream(alloc: Global) -> Result<Vec<u8>, Fail> {
    let mut bytes = Vec::new(alloc);
    for _ in 0..64u8 {
        bytes.extend_from_slice(&65_536u32.to_be_bytes())?;
        bytes.extend_from_slice(&[4, 0, 0, 0, 0, 2, 1, b'f'])?;
        bytes.extend_from_slice(&[0; SET_BYTES])?;
        bytes.extend_from_slice(&[0; 2])?;
        bytes.extend_from_slice(&[7; 32])?;
        bytes.extend_from_slice(&(BODY as u32).to_be_bytes())?;
        bytes.extend_from_slice(&[1; BODY])?;
        bytes.extend_from_slice(&[9; 32])?;
    }
    Ok(bytes)
}

// How many of the frames are requests.
fn requests(alloc: Global, frames: &[Octets]) -> usize {
    let mut count = 0usize;
    for frame in frames {
        if read_request(alloc, frame.as_slice()).is_ok() {
            count = count.saturating_add(1);
        }
    }
    count
}

// Feeds the bytes piece by piece, and reads each frame once it is whole.
fn pass(alloc: Global, decoder: &mut Decoder, bytes: &[u8]) -> Result<usize, Fail> {
    let mut count = 0usize;
    let mut frames = Vec::new(alloc);
    for piece in 0..bytes.len() / PIECE + 1 {
        let start = piece.saturating_mul(PIECE).min(bytes.len());
        let end = start.saturating_add(PIECE).min(bytes.len());
        decoder.feed(&bytes[start..end], &mut frames)?;
        count = count.saturating_add(requests(alloc, &frames));
        frames.clear();
    }
    Ok(count)
}

/// Cuts and reads 256 MiB of frames; how many requests there were.
pub fn reads(alloc: Global) -> Result<usize, Fail> {
    let bytes = stream(alloc)?;
    let mut decoder = Decoder::new(alloc)?;
    let mut count = 0usize;
    for _ in 0..64u8 {
        count = count.saturating_add(pass(alloc, &mut decoder, &bytes)?);
    }
    Ok(count)
}

/// Copies the same bytes as often; how many there are of them.
pub fn copies(alloc: Global) -> Result<usize, Fail> {
    let bytes = stream(alloc)?;
    let mut copy = Vec::new(alloc);
    for _ in 0..64u8 {
        copy.clear();
        copy.extend_from_slice(&bytes)?;
    }
    Ok(copy.len())
}
