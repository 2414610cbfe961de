//! Disks that are made of bytes, changed or cut.
use crate::case::Case;
use crate::serving::served;
use crate::texts::{byte_of, number_of, shown};
use crate::words::area_of;
use ov_base::Octets;
use ov_disk::MemDisk;
use ov_store::is_to_be_carried_over;
use std::alloc::{AllocError, Global};
use std::test::Fail;

// A disk of these bytes.
fn disk_of(alloc: Global, book: Vec<u8>, blobs: Vec<u8>) -> MemDisk {
    MemDisk::of(alloc, Octets::from_vec(book), Octets::from_vec(blobs))
}

// Copies of both areas.
fn areas_of(alloc: Global, disk: &MemDisk) -> Result<(Vec<u8>, Vec<u8>), AllocError> {
    Ok((disk.book().to_vec(alloc)?, disk.blobs().to_vec(alloc)?))
}

/// A disk of the same bytes that had no call.
pub fn copy_of(alloc: Global, disk: &MemDisk) -> Result<MemDisk, AllocError> {
    let (book, blobs) = areas_of(alloc, disk)?;
    Ok(disk_of(alloc, book, blobs))
}

/// A disk with the bytes of these words behind its Book.
pub fn with_book(alloc: Global, disk: &MemDisk, words: &str) -> Result<MemDisk, Fail> {
    let (mut book, blobs) = areas_of(alloc, disk)?;
    book.extend_from_slice(&area_of(alloc, words)?)?;
    Ok(disk_of(alloc, book, blobs))
}

/// A disk with the bytes of these words behind its Blobs.
pub fn with_blobs(alloc: Global, disk: &MemDisk, words: &str) -> Result<MemDisk, Fail> {
    let (book, mut blobs) = areas_of(alloc, disk)?;
    blobs.extend_from_slice(&area_of(alloc, words)?)?;
    Ok(disk_of(alloc, book, blobs))
}

// A disk with one byte of its Book changed, and both areas cut to these lengths.
fn changed(alloc: Global, disk: &MemDisk, words: &str) -> Result<MemDisk, Fail> {
    let (mut book, mut blobs) = areas_of(alloc, disk)?;
    let (place, rest) = words.split_once(' ').ok_or("a place")?;
    let (byte, rest) = rest.split_once(' ').ok_or("a byte")?;
    let (length, length_of_blobs) = rest.split_once(' ').ok_or("two lengths")?;
    let (place, byte) = (number_of(place)? as usize, byte_of(byte)?);
    match book.get_mut(place) {
        Some(old) => *old = byte,
        None => return Err(Fail::from("a place in Book was expected")),
    }
    book.truncate(number_of(length)? as usize);
    blobs.truncate(number_of(length_of_blobs)? as usize);
    Ok(disk_of(alloc, book, blobs))
}

/// Prints whether a store begins on a disk that was changed, or why none does.
pub fn print_changed(rt: &HostRuntime, case: &Case, words: &str) -> Result<(), Fail> {
    let mut disk = changed(rt.alloc(), &case.disk, words)?;
    let left = served(rt.alloc(), &case.keys, &[], &mut disk);
    drop(disk);
    let left = left?;
    if left.error.is_empty() {
        let epoch = left.epoch;
        println!(rt; "changed {words}: epoch {epoch}")?;
    } else {
        let error = left.error.as_str();
        print!(rt; "changed {words}: {error}")?;
    }
    Ok(())
}

/// Prints all bytes of Book, and whether the store there is to be carried over.
pub fn print_book(rt: &HostRuntime, case: &mut Case) -> Result<(), Fail> {
    let book = shown(rt.alloc(), case.disk.book())?;
    let due = match is_to_be_carried_over(rt.alloc(), &mut case.disk) {
        Ok(true) => "first form",
        Ok(false) => "not the first form",
        Err(_) => "none",
    };
    println!(rt; "book {book}, {due}")?;
    Ok(())
}
