//! Scripts that are too long to be written down.
use crate::texts::{number_of, push_text};
use std::alloc::{AllocError, Global};
use std::test::Fail;

/// Appends bytes from 1 up, as many as this.
pub fn push_rising(to: &mut Vec<u8>, count: u64) -> Result<(), AllocError> {
    let mut next = 0u8;
    for _ in 0..count {
        next = next.wrapping_add(1);
        to.push(next)?;
    }
    Ok(())
}

/// Appends one byte so many times.
pub fn push_same(to: &mut Vec<u8>, count: u64, byte: u8) -> Result<(), AllocError> {
    for _ in 0..count {
        to.push(byte)?;
    }
    Ok(())
}

// Appends a text as a line, with the number in place of each `#`.
fn push_numbered(
    alloc: Global,
    to: &mut Vec<u8>,
    text: &str,
    number: u64,
) -> Result<(), AllocError> {
    let digits = format!(in alloc; "{number}")?;
    let mut between: &[u8] = b"";
    for part in text.split('#') {
        to.extend_from_slice(between)?;
        push_text(to, part.as_bytes())?;
        between = digits.as_bytes();
    }
    to.push(b'\n')?;
    Ok(())
}

/// Appends a line for each number.
pub fn push_lines(alloc: Global, to: &mut Vec<u8>, rest: &str) -> Result<(), Fail> {
    let (first, rest) = rest.split_once(' ').ok_or("two numbers and a text")?;
    let (last, text) = rest.split_once(' ').ok_or("a number and a text")?;
    for number in number_of(first)?..=number_of(last)? {
        push_numbered(alloc, to, text, number)?;
    }
    Ok(())
}

// Appends the names of those of the users whose bits are set.
fn push_members(alloc: Global, to: &mut Vec<u8>, members: u32) -> Result<(), AllocError> {
    let mut head = "u";
    for user in 0..12u32 {
        if members >> user & 1 == 1 {
            let name = format!(in alloc; "{head}{user}")?;
            to.extend_from_slice(name.as_bytes())?;
            head = ",u";
        }
    }
    if members == 0 {
        to.push(b'-')?;
    }
    Ok(())
}

/// Appends the creation of a file of no bytes for each set of the users `u0` to `u11` that isn't
/// one user alone.
pub fn push_sets(alloc: Global, to: &mut Vec<u8>) -> Result<(), AllocError> {
    for members in 0..4096u32 {
        if members.count_ones() != 1 {
            let head = format!(in alloc; "create f{members} ")?;
            to.extend_from_slice(head.as_bytes())?;
            push_members(alloc, to, members)?;
            to.extend_from_slice(b" 0\n\n")?;
        }
    }
    Ok(())
}
