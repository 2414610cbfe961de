//! Numbers, texts and bytes in the lines of a case, and in those that are printed.
use sha2::{Digest, Sha256};
use std::alloc::Global;
use std::test::Fail;

/// The most bytes that are printed as they are.
const LONGEST: usize = 400;

/// The number that a word is.
pub fn number_of(word: &str) -> Result<u64, Fail> {
    match word.parse::<u64>() {
        Ok(number) => Ok(number),
        Err(_) => Err(Fail::from("a number was expected")),
    }
}

/// The smaller number that a word is.
pub fn small_of(word: &str) -> Result<u32, Fail> {
    match word.parse::<u32>() {
        Ok(number) => Ok(number),
        Err(_) => Err(Fail::from("a smaller number was expected")),
    }
}

/// The byte that a word is.
pub fn byte_of(word: &str) -> Result<u8, Fail> {
    match word.parse::<u8>() {
        Ok(byte) => Ok(byte),
        Err(_) => Err(Fail::from("a byte was expected")),
    }
}

/// The bytes that these digits spell.
pub fn bytes_of(alloc: Global, digits: &str) -> Result<Vec<u8>, Fail> {
    match hex::decode(alloc, digits.as_bytes()) {
        Ok(bytes) => Ok(bytes),
        Err(_) => Err(Fail::from("digits were expected")),
    }
}

/// 32 bytes by their digits, or one byte 32 times.
pub fn block_of(alloc: Global, digits: &str) -> Result<[u8; 32], Fail> {
    let bytes = bytes_of(alloc, digits)?;
    match bytes.as_slice() {
        [byte] => Ok([*byte; 32]),
        all => match all.first_chunk::<32>() {
            Some(block) => Ok(*block),
            None => Err(Fail::from("32 bytes were expected")),
        },
    }
}

/// How many bytes these are, and the first digits of their hash.
pub fn sum_of(alloc: Global, bytes: &[u8]) -> Result<String, Fail> {
    let mut hasher = Sha256::new();
    hasher.update(bytes);
    let digest = hasher.finalize();
    let first = hex::encode(alloc, digest.as_slice().get(..8).unwrap_or(b""))?;
    let count = bytes.len();
    Ok(format!(in alloc; "{count} {first}")?)
}

/// Bytes by their digits, or many bytes by their number and their hash.
pub fn shown(alloc: Global, bytes: &[u8]) -> Result<String, Fail> {
    if bytes.is_empty() {
        return Ok(String::from_str(alloc, "-")?);
    }
    if bytes.len() <= LONGEST {
        return Ok(hex::encode(alloc, bytes)?);
    }
    sum_of(alloc, bytes)
}

/// Copies of these texts.
pub fn copies(alloc: Global, texts: &[String]) -> Result<Vec<String>, Fail> {
    let mut all = Vec::new(alloc);
    for text in texts {
        all.push(String::from_str(alloc, text.as_str())?)?;
    }
    Ok(all)
}
