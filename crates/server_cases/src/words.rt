//! Bytes as words: those of frames, and of a disk's areas.
use crate::texts::{bytes_of, number_of, small_of};
use ov_base::Key;
use ov_tokens::SurfaceMaster;
use std::alloc::Global;
use std::test::Fail;

// The owner's tag of an update: of the epoch behind the kind, and the spelling behind it.
fn tag_of(frame: &[u8], surface: &Key) -> Result<[u8; 32], Fail> {
    if frame.len() < 5 || frame.len() > 1_000_000 {
        return Err(Fail::from("an update of up to a million bytes was expected"));
    }
    let epoch = [frame[1], frame[2], frame[3], frame[4]];
    Ok(SurfaceMaster::new(surface).owner_mac(&epoch, &frame[5..]))
}

// Appends the owner's tag of an update.
fn push_tag(frame: &mut Vec<u8>, surface: &Key) -> Result<(), Fail> {
    let tag = tag_of(frame, surface)?;
    frame.extend_from_slice(&tag)?;
    Ok(())
}

// Appends a text behind its length.
fn push_name(to: &mut Vec<u8>, text: &str) -> Result<(), Fail> {
    match u8::try_from(text.len()) {
        Ok(length) => to.push(length)?,
        Err(_) => return Err(Fail::from("a shorter name was expected")),
    }
    to.extend_from_slice(text.as_bytes())?;
    Ok(())
}

// Appends a word that is no more than bytes.
fn push_bytes(alloc: Global, to: &mut Vec<u8>, word: &str) -> Result<(), Fail> {
    if let Some(name) = word.strip_prefix("'") {
        return push_name(to, name);
    }
    if let Some(text) = word.strip_prefix("\"") {
        to.extend_from_slice(text.as_bytes())?;
        return Ok(());
    }
    if let Some(number) = word.strip_prefix("=") {
        to.extend_from_slice(&small_of(number)?.to_be_bytes())?;
        return Ok(());
    }
    if let Some(count) = word.strip_prefix("*") {
        for _ in 0..number_of(count)? {
            to.push(0)?;
        }
        return Ok(());
    }
    to.extend_from_slice(&bytes_of(alloc, word)?)?;
    Ok(())
}

/// Appends the bytes of words to a frame: `now` is this epoch, and `tag` the owner's tag of the
/// update so far.
pub fn push_words(
    alloc: Global,
    frame: &mut Vec<u8>,
    words: &str,
    epoch: u32,
    surface: &Key,
) -> Result<(), Fail> {
    for word in words.split(' ') {
        match word {
            "now" => frame.extend_from_slice(&epoch.to_be_bytes())?,
            "tag" => push_tag(frame, surface)?,
            _ => push_bytes(alloc, frame, word)?,
        }
    }
    Ok(())
}

/// The bytes of words, none of which is `now` or `tag`.
pub fn area_of(alloc: Global, words: &str) -> Result<Vec<u8>, Fail> {
    let mut area = Vec::new(alloc);
    for word in words.split(' ') {
        push_bytes(alloc, &mut area, word)?;
    }
    Ok(area)
}
