//! What the system says of a book: whether a store was begun in it, and in which format.

use crate::faults::{folder_of, is_folder};
use ov_retry::read_retrying;
use std::fs;
use std::fs::File;
use std::io::{ErrorKind, Read};

// One byte more than the longest file that counts as no store, whatever its bytes.
const STORE_LENGTH: usize = 80;

// What the book of a store of the first format begins with: its gate, and the magic.
const FIRST_FORMAT: [u8; 9] = *b"\x01OVERENC1";

// Whether no store was begun in this file.
fn is_unborn(rt: &HostRuntime, book: &str) -> bool {
    let mut front = [0; STORE_LENGTH];
    let count = match File::open(rt, book) {
        Ok(mut file) => read_retrying(&mut file, &mut front).unwrap_or(STORE_LENGTH),
        Err(_) => STORE_LENGTH,
    };
    count < 2 || count < STORE_LENGTH && front[0] != 1
}

/// Whether a program that opens this book begins a new store: there is no file of that name, but
/// its folder, or no store was begun in it.
pub fn begins(rt: &HostRuntime, book: &str) -> bool {
    match fs::metadata(rt, book) {
        Ok(about) => about.is_file() && is_unborn(rt, book),
        Err(error) => error.kind() == ErrorKind::NotFound && is_folder(rt, folder_of(book)),
    }
}

/// Whether this book is that of a store of the first format, by what it begins with.
pub fn is_of_first_format(rt: &HostRuntime, book: &str) -> bool {
    match fs::metadata(rt, book) {
        Ok(about) if about.is_file() => begins_with_first(rt, book),
        _ => false,
    }
}

// Whether this file begins so.
fn begins_with_first(rt: &HostRuntime, book: &str) -> bool {
    let mut front = [0; 9];
    match File::open(rt, book) {
        Ok(mut file) => file.read_exact(&mut front).is_ok() && front == FIRST_FORMAT,
        Err(_) => false,
    }
}
