//! Changes of a disk's areas.
use crate::scripts::push_same;
use crate::texts::{byte_of, number_of, push_text};
use ov_base::Octets;
use ov_disk::MemDisk;
use std::alloc::{AllocError, Global};
use std::test::Fail;

// Puts a byte at a place, if there is one.
fn put_byte(bytes: &mut Vec<u8>, place: u64, byte: u8) {
    match bytes.get_mut(place as usize) {
        Some(old) => *old = byte,
        None => {}
    }
}

// Changes an area's bytes in one of four ways.
fn change(bytes: &mut Vec<u8>, how: &str, rest: &str) -> Result<(), Fail> {
    match how {
        "=" => {
            let (place, byte) = rest.split_once(' ').ok_or("a place and a byte")?;
            put_byte(bytes, number_of(place)?, byte_of(byte)?);
        }
        "*" => {
            let (count, byte) = rest.split_once(' ').ok_or("a count and a byte")?;
            push_same(bytes, number_of(count)?, byte_of(byte)?)?;
        }
        "<" => bytes.truncate(number_of(rest)? as usize),
        _ => push_text(bytes, rest.as_bytes())?,
    }
    Ok(())
}

// A disk of these bytes.
fn disk_of(alloc: Global, book: Vec<u8>, blobs: Vec<u8>) -> MemDisk {
    MemDisk::of(alloc, Octets::from_vec(book), Octets::from_vec(blobs))
}

// Copies of both areas.
fn areas_of(alloc: Global, disk: &MemDisk) -> Result<(Vec<u8>, Vec<u8>), AllocError> {
    Ok((disk.book().to_vec(alloc)?, disk.blobs().to_vec(alloc)?))
}

/// The same bytes as after a sync, on a disk that had no calls.
pub fn synced(alloc: Global, disk: &MemDisk) -> Result<MemDisk, AllocError> {
    let (book, blobs) = areas_of(alloc, disk)?;
    Ok(disk_of(alloc, book, blobs))
}

/// A disk with a changed Book.
pub fn with_book(alloc: Global, disk: &MemDisk, how: &str, rest: &str) -> Result<MemDisk, Fail> {
    let (mut book, blobs) = areas_of(alloc, disk)?;
    change(&mut book, how, rest)?;
    Ok(disk_of(alloc, book, blobs))
}

/// A disk with a changed Blobs.
pub fn with_blobs(alloc: Global, disk: &MemDisk, how: &str, rest: &str) -> Result<MemDisk, Fail> {
    let (book, mut blobs) = areas_of(alloc, disk)?;
    change(&mut blobs, how, rest)?;
    Ok(disk_of(alloc, book, blobs))
}

/// Prints how long an area is, and its last bytes.
pub fn print_area(rt: &HostRuntime, name: &str, bytes: &[u8]) -> Result<(), Fail> {
    let alloc = rt.alloc();
    let count = bytes.len();
    let end = bytes.get(count.saturating_sub(20)..).unwrap_or(b"");
    let end = hex::encode(alloc, end)?;
    println!(rt; "{name} has {count} bytes, and ends with {end}")?;
    Ok(())
}
