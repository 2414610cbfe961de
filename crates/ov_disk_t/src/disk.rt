//! Tears, faults at single calls, and real files.
use ov_base::Octets;
use ov_disk::{Area, Disk, DiskFault, FileDisk, MemDisk, Tear};
use std::alloc::Global;
use std::fs;
use std::process::Abort;
use std::test::Fail;

// Writes over the last byte of Book, and syncs. Its length afterwards is answered. By the length
// before, the place that is written is within Book.
fn write_over_last<D: Disk>(disk: &mut D, bytes: &[u8]) -> Result<u64, DiskFault> {
    let length = disk.len(Area::Book)?;
    if 1 <= length {
        disk.write_at(Area::Book, length - 1, bytes)?;
    }
    disk.sync()?;
    disk.len(Area::Book)
}

// Three bytes, of which the last is written over with three others: a length, the write, a sync and
// a length.
fn written(rt: &impl Abort, alloc: Global) -> Result<MemDisk, Fail> {
    let book = Octets::copy(alloc, b"abc")?;
    let mut disk = MemDisk::of(alloc, book, Octets::copy(alloc, b"z")?);
    assert_eq!(rt; write_over_last(&mut disk, b"xyz"), Ok(5));
    Ok(disk)
}

/// The disk that a stop after this many calls leaves, or none where there were fewer.
pub fn left(disk: &MemDisk, call: u64, tear: Tear) -> Result<Option<MemDisk>, Fail> {
    if call <= disk.calls() {
        Ok(Some(disk.image(call, tear)?))
    } else {
        Ok(None)
    }
}

// What a stop after this many calls leaves.
const LEFT: [(u64, Tear, &[u8]); 7] = [
    (0, Tear::New, b"abc"),
    (1, Tear::New, b"abc"),
    (2, Tear::Old, b"abc"),
    (2, Tear::New, b"abxyz"),
    (2, Tear::Fill(7), b"ab\x07\x07\x07"),
    (3, Tear::Old, b"abxyz"),
    (4, Tear::Fill(7), b"abxyz"),
];

// Makes sure of what a stop after this many calls leaves.
fn expect_left(
    rt: &impl Abort,
    disk: &MemDisk,
    call: u64,
    tear: Tear,
    book: &[u8],
) -> Result<(), Fail> {
    let left = left(disk, call, tear)?.ok_or("a stop")?;
    assert_eq!(rt; left.book(), book, "at {call}");
    assert_eq!(rt; left.blobs(), b"z".as_slice());
    assert_eq!(rt; left.calls(), 0);
    Ok(())
}

#[test]
fn a_write_torn_in_each_way(rt: HostRuntime) -> Result<(), Fail> {
    let disk = written(&rt, rt.alloc())?;
    assert_eq!(rt; disk.calls(), 4);
    for (call, tear, book) in &LEFT {
        expect_left(&rt, &disk, *call, *tear, book)?;
    }
    Ok(())
}

// An empty disk on which three calls fail.
fn failing(alloc: Global) -> Result<MemDisk, Fail> {
    let mut disk = MemDisk::new(alloc);
    disk.fail_at(1)?;
    disk.fail_at(2)?;
    disk.fail_at(4)?;
    Ok(disk)
}

// The length of Blobs, and whether two bytes of it are read where it has two.
fn length_and_read<D: Disk>(disk: &mut D) -> Result<(u64, bool), DiskFault> {
    let length = disk.len(Area::Blobs)?;
    let mut buf = [0u8; 2];
    if 2 <= length {
        return Ok((length, disk.read(Area::Blobs, 0, &mut buf).is_ok()));
    }
    Ok((length, false))
}

// Makes sure of what is answered by a disk whose second call fails, its third and its fifth.
fn expect_failing<D: Disk>(rt: &impl Abort, disk: &mut D) {
    assert_eq!(rt; disk.write_at(Area::Blobs, 0, b"hi"), Ok(()));
    assert_eq!(rt; disk.write_at(Area::Blobs, 0, b"ho"), Err(DiskFault));
    assert_eq!(rt; disk.sync(), Err(DiskFault));
    assert_eq!(rt; length_and_read(disk), Ok((2, false)));
}

#[test]
fn calls_that_fail(rt: HostRuntime) -> Result<(), Fail> {
    let mut disk = failing(rt.alloc())?;
    expect_failing(&rt, &mut &mut disk);
    assert_eq!(rt; disk.blobs(), b"hi".as_slice());
    let left = left(&disk, 3, Tear::Old)?.ok_or("a stop")?;
    assert_eq!(rt; left.blobs(), b"".as_slice());
    Ok(())
}

// How many bytes are kept of a write of five that fails, what is read then, and what a stop leaves
// that fills the torn range.
const PARTS: [(u64, &[u8], &[u8]); 4] = [
    (0, b"abc", b"abc"),
    (2, b"VWc", b"\x07\x07c"),
    (5, b"VWXYZ", b"\x07\x07\x07\x07\x07"),
    (9, b"VWXYZ", b"\x07\x07\x07\x07\x07"),
];

// A disk with some bytes in both areas, no call yet, and a first call that fails.
fn failing_part(alloc: Global, keep: u64) -> Result<MemDisk, Fail> {
    let book = Octets::copy(alloc, b"abc")?;
    let mut disk = MemDisk::of(alloc, book, Octets::copy(alloc, b"z")?);
    disk.fail_part(0, keep)?;
    // The first failure of a call counts.
    disk.fail_part(0, 1)?;
    Ok(disk)
}

// Makes sure of what a write of five bytes leaves that fails after this many, and of the sync after
// it.
fn expect_part(
    rt: &impl Abort,
    alloc: Global,
    keep: u64,
    put: &[u8],
    filled: &[u8],
) -> Result<(), Fail> {
    let mut disk = failing_part(alloc, keep)?;
    assert_eq!(rt; disk.write_at(Area::Book, 0, b"VWXYZ"), Err(DiskFault));
    assert_eq!(rt; disk.book(), put);
    expect_left(rt, &disk, 0, Tear::New, b"abc")?;
    expect_left(rt, &disk, 1, Tear::Old, b"abc")?;
    expect_left(rt, &disk, 1, Tear::New, put)?;
    expect_left(rt, &disk, 1, Tear::Fill(7), filled)?;
    assert_eq!(rt; disk.sync(), Ok(()));
    expect_left(rt, &disk, 2, Tear::Old, put)
}

#[test]
fn a_write_that_fails_after_its_first_bytes(rt: HostRuntime) -> Result<(), Fail> {
    for (keep, put, filled) in &PARTS {
        expect_part(&rt, rt.alloc(), *keep, put, filled)?;
    }
    Ok(())
}

// Three calls of a disk behind its first call: a read, a sync and a length, of which each fails.
fn expect_no_part<D: Disk>(rt: &impl Abort, disk: &mut D) {
    assert_eq!(rt; length_and_read(disk), Ok((2, false)));
    assert_eq!(rt; disk.sync(), Err(DiskFault));
    assert_eq!(rt; disk.len(Area::Book), Err(DiskFault));
}

#[test]
fn other_calls_that_fail_keep_no_part(rt: HostRuntime) -> Result<(), Fail> {
    let alloc = rt.alloc();
    let blobs = Octets::copy(alloc, b"hi")?;
    let mut disk = MemDisk::of(alloc, Octets::copy(alloc, b"abc")?, blobs);
    for call in 1..4 {
        disk.fail_part(call, 3)?;
    }
    expect_no_part(&rt, &mut &mut disk);
    assert_eq!(rt; disk.calls(), 4);
    assert_eq!(rt; disk.book(), b"abc".as_slice());
    assert_eq!(rt; disk.blobs(), b"hi".as_slice());
    let left = left(&disk, 4, Tear::New)?.ok_or("a stop")?;
    assert_eq!(rt; left.book(), b"abc".as_slice());
    assert_eq!(rt; left.blobs(), b"hi".as_slice());
    Ok(())
}

const FOLDER: &str = "ov_disk_test";

const BOOK: &str = "ov_disk_test/book";

const BLOBS: &str = "ov_disk_test/blobs";

// Writes of files that are new, a read within them, and one past their end.
fn expect_first(rt: &impl Abort, disk: &mut FileDisk<HostRuntime>) {
    assert_eq!(rt; disk.write_at(Area::Book, 0, b"first"), Ok(()));
    assert_eq!(rt; disk.write_at(Area::Book, 4, b"ly"), Ok(()));
    assert_eq!(rt; disk.sync(), Ok(()));
    assert_eq!(rt; disk.len(Area::Book), Ok(6));
    assert_eq!(rt; disk.len(Area::Blobs), Ok(0));
    let mut buf = [0u8; 3];
    assert_eq!(rt; disk.read(Area::Book, 3, &mut buf), Ok(()));
    assert_eq!(rt; buf, *b"sly");
    assert_eq!(rt; disk.read(Area::Book, 4, &mut buf), Err(DiskFault));
}

// A folder, a device, one file for both areas, and a folder that is missing.
const NO_FILES: [(&str, &str); 4] = [
    (FOLDER, BLOBS),
    ("/dev/full", BLOBS),
    (BOOK, BOOK),
    ("ov_disk_none/book", BLOBS),
];

// The length of Blobs on a disk that is used no more.
fn length_of<D: Disk + Drop>(disk: D) -> Result<u64, DiskFault> {
    let mut disk = disk;
    disk.len(Area::Blobs)
}

#[test]
fn two_files(rt: HostRuntime) -> Result<(), Fail> {
    let _ = fs::remove_dir_all(&rt, FOLDER);
    let mut early = FileDisk::new(rt, BOOK, BLOBS)?;
    assert_eq!(rt; early.len(Area::Book), Err(DiskFault));
    fs::create_dir(&rt, FOLDER)?;
    expect_first(&rt, &mut early);
    // From a second disk while the first holds the files.
    let mut late = FileDisk::new(rt, BOOK, BLOBS)?;
    assert_eq!(rt; late.sync(), Err(DiskFault));
    drop(early);
    assert_eq!(rt; late.len(Area::Book), Ok(6));
    // A write that the system refuses.
    assert_eq!(rt; late.write_at(Area::Book, u64::MAX, b"x"), Err(DiskFault));
    drop(late);
    for (book, blobs) in &NO_FILES {
        let length = length_of(FileDisk::new(rt, book, blobs)?);
        assert_eq!(rt; length, Err(DiskFault), "of {book}");
    }
    fs::remove_dir_all(&rt, FOLDER)?;
    Ok(())
}
