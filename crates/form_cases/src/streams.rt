//! Streams of frames in pieces.
use crate::texts::{put_bytes, put_number, put_word};
use ov_base::Octets;
use ov_wire::{Decoder, FeedFault};
use std::alloc::Global;
use std::test::Fail;

// Appends the frames that came, or where a length field is bad, and how many bytes are pending.
fn told(
    rt: &HostRuntime,
    decoder: &Decoder,
    frames: &[Octets],
    fed: Result<(), FeedFault>,
) -> Result<String, Fail> {
    let mut line = String::new(rt.alloc());
    for frame in frames {
        put_bytes(&mut line, frame.as_slice())?;
    }
    match fed {
        Ok(()) => put_word(&mut line, "pending")?,
        Err(FeedFault::BadFrame { at }) => {
            put_word(&mut line, "bad at")?;
            put_number(&mut line, at)?;
            put_word(&mut line, "pending")?;
        }
        Err(FeedFault::Memory) => return Err(Fail::from("no memory")),
    }
    put_number(&mut line, decoder.pending())?;
    Ok(line)
}

/// Gives a piece to a decoder, and prints what came.
pub fn tell_piece(rt: &HostRuntime, decoder: &mut Decoder, piece: &[u8]) -> Result<(), Fail> {
    let mut frames = Vec::new(rt.alloc());
    let fed = decoder.feed(piece, &mut frames);
    let line = told(rt, decoder, &frames, fed)?;
    println!(rt; "feed{line}")?;
    Ok(())
}

// The bytes in pieces of so many, the last one shorter.
fn pieces_of(alloc: Global, size: usize, bytes: &[u8]) -> Result<Vec<Octets>, Fail> {
    let mut pieces = Vec::new(alloc);
    let mut rest = bytes;
    for _ in 0..bytes.len() {
        let (piece, behind) = rest.split_at(size.min(rest.len()));
        if !piece.is_empty() {
            pieces.push(Octets::copy(alloc, piece)?)?;
        }
        rest = behind;
    }
    Ok(pieces)
}

// What comes of pieces that a new decoder is given one after the other.
fn told_each(rt: &HostRuntime, pieces: &[Octets]) -> Result<String, Fail> {
    let mut decoder = Decoder::new(rt.alloc())?;
    let mut frames = Vec::new(rt.alloc());
    let mut fed = Ok(());
    for piece in pieces {
        if fed.is_ok() {
            fed = decoder.feed(piece.as_slice(), &mut frames);
        }
    }
    told(rt, &decoder, &frames, fed)
}

// What comes of pieces that a new decoder is given at once.
fn told_all(rt: &HostRuntime, pieces: &[Octets]) -> Result<String, Fail> {
    let mut decoder = Decoder::new(rt.alloc())?;
    let mut frames = Vec::new(rt.alloc());
    let fed = decoder.feed_all(pieces, &mut frames);
    told(rt, &decoder, &frames, fed)
}

/// Gives bytes to new decoders in pieces of so many, one after the other and at once, and prints what
/// came of all.
pub fn tell_pieces(rt: &HostRuntime, size: usize, bytes: &[u8]) -> Result<(), Fail> {
    let pieces = pieces_of(rt.alloc(), size, bytes)?;
    let line = told_each(rt, &pieces)?;
    if told_all(rt, &pieces)? != line {
        return Err(Fail::from("pieces at once give other frames"));
    }
    println!(rt; "feeds {size}:{line}")?;
    Ok(())
}
