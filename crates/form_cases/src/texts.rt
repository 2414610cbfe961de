//! Texts, numbers and bytes, in the lines of a case and in those that are printed.
use ov_base::Name;
use sha2::{Digest, Sha256};
use std::alloc::{AllocError, Global};
use std::test::Fail;

/// The most bytes that are printed as they are.
const LONGEST: usize = 400;

/// The number that a word is.
pub fn number_of(word: &str) -> Result<u32, Fail> {
    match word.parse::<u32>() {
        Ok(number) => Ok(number),
        Err(_) => Err(Fail::from("a number was expected")),
    }
}

/// The bytes that these digits spell.
pub fn bytes_of(alloc: Global, digits: &str) -> Result<Vec<u8>, Fail> {
    match hex::decode(alloc, digits.as_bytes()) {
        Ok(bytes) => Ok(bytes),
        Err(_) => Err(Fail::from("digits were expected")),
    }
}

// The value of a digit to base 16.
fn digit(byte: u8) -> u8 {
    match byte {
        b'0'..=b'9' => byte - b'0',
        b'a'..=b'f' => byte - b'a' + 10,
        _ => 0,
    }
}

// The byte that stands behind a backslash, and how many bytes of the text that takes.
fn escaped(rest: &[u8]) -> (u8, usize) {
    match rest {
        [b'x', high, low, ..] => (digit(*high) << 4 | digit(*low), 3),
        [b'n', ..] => (b'\n', 1),
        [b'r', ..] => (b'\r', 1),
        [byte, ..] => (*byte, 1),
        [] => (b'\\', 0),
    }
}

/// Appends the bytes of a text.
pub fn push_text(to: &mut Vec<u8>, text: &[u8]) -> Result<(), AllocError> {
    let mut rest = text;
    for _ in 0..text.len() {
        match rest {
            [b'\\', behind @ ..] => {
                let (byte, count) = escaped(behind);
                to.push(byte)?;
                rest = behind.get(count..).unwrap_or(b"");
            }
            [byte, behind @ ..] => {
                to.push(*byte)?;
                rest = behind;
            }
            [] => break,
        }
    }
    Ok(())
}

/// Appends a text so many times.
pub fn push_times(alloc: Global, to: &mut Vec<u8>, count: u32, text: &str) -> Result<(), Fail> {
    let mut bytes = Vec::new(alloc);
    push_text(&mut bytes, text.as_bytes())?;
    for _ in 0..count {
        to.extend_from_slice(&bytes)?;
    }
    Ok(())
}

/// Appends a space and a word.
pub fn put_word(line: &mut String, word: &str) -> Result<(), AllocError> {
    line.push_str(" ")?;
    line.push_str(word)
}

/// Appends a space and a name.
pub fn put_name(line: &mut String, name: &Name) -> Result<(), AllocError> {
    line.push_str(" ")?;
    for byte in name.as_bytes() {
        line.push(char::from(*byte))?;
    }
    Ok(())
}

/// Appends a space and a number.
pub fn put_number(line: &mut String, number: u64) -> Result<(), AllocError> {
    let word = format!(in *line.allocator(); " {number}")?;
    line.push_str(&word)
}

/// Appends a space and bytes by their digits, or many bytes by their number and their hash.
pub fn put_bytes(line: &mut String, bytes: &[u8]) -> Result<(), AllocError> {
    let alloc = *line.allocator();
    if bytes.len() <= LONGEST {
        let digits = hex::encode(alloc, bytes)?;
        return put_word(line, if digits.is_empty() { "-" } else { &digits });
    }
    let mut hasher = Sha256::new();
    hasher.update(bytes);
    let digest = hasher.finalize();
    let first = hex::encode(alloc, digest.as_slice().get(..8).unwrap_or(b""))?;
    let count = bytes.len();
    let word = format!(in alloc; "{count} of {first}")?;
    put_word(line, &word)
}
