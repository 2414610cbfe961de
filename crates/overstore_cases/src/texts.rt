//! Texts and numbers in the lines of a case.
use std::alloc::AllocError;
use std::test::Fail;

/// The number that a word stands for.
pub fn number_of(word: &str) -> Result<u64, Fail> {
    match word.parse::<u64>() {
        Ok(number) => Ok(number),
        Err(_) => Err(Fail::from("a number was expected")),
    }
}

/// The byte that a word stands for.
pub fn byte_of(word: &str) -> Result<u8, Fail> {
    match u8::try_from(number_of(word)?) {
        Ok(byte) => Ok(byte),
        Err(_) => Err(Fail::from("a byte was expected")),
    }
}

/// The smaller number that a word stands for.
pub fn small_of(word: &str) -> Result<u32, Fail> {
    match u32::try_from(number_of(word)?) {
        Ok(number) => Ok(number),
        Err(_) => Err(Fail::from("a smaller number was expected")),
    }
}

// The value of a digit to base 16.
fn digit(byte: u8) -> u8 {
    match byte {
        b'0'..=b'9' => byte - b'0',
        b'a'..=b'f' => byte - b'a' + 10,
        _ => 0,
    }
}

// The byte that a backslash and what follows it stand for, and how many bytes follow.
fn escaped(rest: &[u8]) -> (u8, usize) {
    match rest {
        [b'x', high, low, ..] => (digit(*high) << 4 | digit(*low), 3),
        [b'n', ..] => (b'\n', 1),
        [b'r', ..] => (b'\r', 1),
        [byte, ..] => (*byte, 1),
        [] => (b'\\', 0),
    }
}

/// Appends the bytes that a text stands for.
pub fn push_text(to: &mut Vec<u8>, text: &[u8]) -> Result<(), AllocError> {
    let mut rest = text;
    for _ in 0..text.len() {
        match rest {
            [b'\\', following @ ..] => {
                let (byte, count) = escaped(following);
                to.push(byte)?;
                rest = following.get(count..).unwrap_or(b"");
            }
            [byte, following @ ..] => {
                to.push(*byte)?;
                rest = following;
            }
            [] => break,
        }
    }
    Ok(())
}
