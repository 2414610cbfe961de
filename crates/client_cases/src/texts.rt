//! Numbers, names and bytes in the lines of a case, and in those that are printed.
use ov_base::Name;
use sha2::{Digest, Sha256};
use std::alloc::Global;
use std::str;
use std::test::Fail;

/// The most bytes that are printed as they are.
const LONGEST: usize = 400;

/// The number that a word is.
pub fn number_of(word: &str) -> Result<usize, Fail> {
    match word.parse::<usize>() {
        Ok(number) => Ok(number),
        Err(_) => Err(Fail::from("a number was expected")),
    }
}

/// The byte that a word is.
pub fn byte_of(word: &str) -> Result<u8, Fail> {
    match word.parse::<u8>() {
        Ok(byte) => Ok(byte),
        Err(_) => Err(Fail::from("a byte was expected")),
    }
}

/// The name that a word is.
pub fn name_of(word: &str) -> Result<Name, Fail> {
    Ok(Name::read(word.as_bytes()).ok_or("a name was expected")?)
}

// The bytes that these digits spell.
fn bytes_of(alloc: Global, digits: &str) -> Result<Vec<u8>, Fail> {
    match hex::decode(alloc, digits.as_bytes()) {
        Ok(bytes) => Ok(bytes),
        Err(_) => Err(Fail::from("digits were expected")),
    }
}

/// 32 bytes by their digits, or one byte 32 times.
pub fn block_of(alloc: Global, digits: &str) -> Result<[u8; 32], Fail> {
    let bytes = bytes_of(alloc, digits)?;
    match bytes.as_slice() {
        [byte] => Ok([*byte; 32]),
        all => match all.first_chunk::<32>() {
            Some(block) => Ok(*block),
            None => Err(Fail::from("32 bytes were expected")),
        },
    }
}

// Appends one word's bytes.
fn push_word(alloc: Global, to: &mut Vec<u8>, word: &str) -> Result<(), Fail> {
    if let Some(text) = word.strip_prefix("\"") {
        to.extend_from_slice(text.as_bytes())?;
        return Ok(());
    }
    if let Some((count, digits)) = word.split_once('*') {
        let bytes = bytes_of(alloc, digits)?;
        for _ in 0..number_of(count)? {
            to.extend_from_slice(&bytes)?;
        }
        return Ok(());
    }
    to.extend_from_slice(&bytes_of(alloc, word)?)?;
    Ok(())
}

/// The bytes of words.
pub fn words_of(alloc: Global, words: &str) -> Result<Vec<u8>, Fail> {
    let mut bytes = Vec::new(alloc);
    for word in words.split(' ') {
        push_word(alloc, &mut bytes, word)?;
    }
    Ok(bytes)
}

// How many bytes these are, and the first digits of their hash.
fn sum_of(alloc: Global, bytes: &[u8]) -> Result<String, Fail> {
    let mut hasher = Sha256::new();
    hasher.update(bytes);
    let digest = hasher.finalize();
    let first = hex::encode(alloc, digest.as_slice().get(..8).unwrap_or(b""))?;
    let count = bytes.len();
    Ok(format!(in alloc; "{count} {first}")?)
}

/// Bytes by their digits, or many bytes by their number and their hash.
pub fn shown(alloc: Global, bytes: &[u8]) -> Result<String, Fail> {
    if bytes.is_empty() {
        return Ok(String::from_str(alloc, "-")?);
    }
    if bytes.len() <= LONGEST {
        return Ok(hex::encode(alloc, bytes)?);
    }
    sum_of(alloc, bytes)
}

/// Lines as they are, and other bytes as they are shown.
pub fn lines_of(alloc: Global, bytes: &[u8]) -> Result<String, Fail> {
    if bytes.is_empty() {
        return Ok(String::new(alloc));
    }
    match (bytes, str::from_utf8(bytes)) {
        ([.., b'\n'], Ok(text)) => Ok(String::from_str(alloc, text)?),
        _ => {
            let bytes = shown(alloc, bytes)?;
            Ok(format!(in alloc; "{bytes}\n")?)
        }
    }
}
