//! Bytes in extents, and what a stop leaves of them.
use super::asked::{put, read};
use crate::runs::expect_runs;
use ov_base::Octets;
use ov_blocks::{Extent, Extents};
use ov_disk::{DiskFault, MemDisk, Tear};
use std::alloc::Global;
use std::process::Abort;
use std::test::Fail;

const FIRST: Extent = Extent {
    first: 0,
    length: 1,
};

const SECOND: Extent = Extent {
    first: 1,
    length: 1,
};

const THIRD: Extent = Extent {
    first: 2,
    length: 2,
};

// Three extents, of which the last one begins where Blobs ends.
fn holding(rt: &impl Abort, alloc: Global) -> Result<Extents, Fail> {
    let mut extents = Extents::new(alloc);
    assert_eq!(rt; extents.hold(0, 1), Ok(true));
    assert_eq!(rt; extents.hold(1, 1), Ok(true));
    assert_eq!(rt; extents.hold(2, 2), Ok(true));
    Ok(extents)
}

// A Book of three bytes, and a Blobs of two blocks that have a byte each, over and over.
fn disk_of_two(alloc: Global) -> Result<MemDisk, Fail> {
    let mut blobs = vec![in alloc; 1u8; 4_096]?;
    blobs.resize(8_192, 2)?;
    let book = Octets::copy(alloc, b"abc")?;
    Ok(MemDisk::of(alloc, book, Octets::from_vec(blobs)))
}

// A put in the middle of the second extent, and one that begins at the end of Blobs.
fn written(rt: &impl Abort, alloc: Global) -> Result<MemDisk, Fail> {
    let extents = holding(rt, alloc)?;
    let mut disk = disk_of_two(alloc)?;
    assert_eq!(rt;
        put(rt, &extents, &mut disk, SECOND, 100, &[7; 200]),
        Ok(())
    );
    assert_eq!(rt; put(rt, &extents, &mut disk, THIRD, 0, &[8; 4_097]), Ok(()));
    assert_eq!(rt; disk.calls(), 2);
    Ok(disk)
}

// How many calls there were before a stop, how it tears, and the runs of bytes in Blobs that it
// leaves.
const LEFT: [(u64, Tear, &[(usize, u8)]); 7] = [
    (0, Tear::New, &[(4_096, 1), (4_096, 2)]),
    (1, Tear::Old, &[(4_096, 1), (4_096, 2)]),
    (1, Tear::New, &[(4_096, 1), (100, 2), (200, 7), (3_796, 2)]),
    (
        1,
        Tear::Fill(9),
        &[(4_096, 1), (100, 2), (200, 9), (3_796, 2)],
    ),
    (2, Tear::Old, &[(4_096, 1), (4_096, 2)]),
    (
        2,
        Tear::New,
        &[(4_096, 1), (100, 2), (200, 7), (3_796, 2), (4_097, 8)],
    ),
    (
        2,
        Tear::Fill(9),
        &[(4_096, 1), (100, 2), (200, 9), (3_796, 2), (4_097, 9)],
    ),
];

#[test]
fn stops_leave_other_extents(rt: HostRuntime) -> Result<(), Fail> {
    let disk = written(&rt, rt.alloc())?;
    for (call, tear, runs) in &LEFT {
        assert!(rt; *call <= disk.calls());
        let left = disk.image(*call, *tear)?;
        assert_eq!(rt; left.book(), b"abc".as_slice());
        expect_runs(&rt, left.blobs(), *runs);
    }
    Ok(())
}

#[test]
fn bytes_are_read_again(rt: HostRuntime) -> Result<(), Fail> {
    let extents = holding(&rt, rt.alloc())?;
    let mut disk = written(&rt, rt.alloc())?;
    let mut buf = [0u8; 4];
    assert_eq!(rt;
        read(&rt, &extents, &mut disk, FIRST, 4_092, &mut buf),
        Ok(())
    );
    assert_eq!(rt; buf, [1; 4]);
    assert_eq!(rt;
        read(&rt, &extents, &mut disk, SECOND, 98, &mut buf),
        Ok(())
    );
    assert_eq!(rt; buf, [2, 2, 7, 7]);
    assert_eq!(rt;
        read(&rt, &extents, &mut disk, THIRD, 4_093, &mut buf),
        Ok(())
    );
    assert_eq!(rt; buf, [8; 4]);
    assert_eq!(rt; disk.calls(), 5);
    Ok(())
}

#[test]
fn faults_leave_the_bytes(rt: HostRuntime) -> Result<(), Fail> {
    let extents = holding(&rt, rt.alloc())?;
    let mut disk = disk_of_two(rt.alloc())?;
    disk.fail_at(0)?;
    disk.fail_at(1)?;
    let mut buf = [0u8; 4];
    assert_eq!(rt;
        put(&rt, &extents, &mut disk, FIRST, 0, &[7; 9]),
        Err(DiskFault)
    );
    assert_eq!(rt;
        read(&rt, &extents, &mut disk, FIRST, 0, &mut buf),
        Err(DiskFault)
    );
    expect_runs(&rt, disk.blobs(), &[(4_096, 1), (4_096, 2)]);
    assert_eq!(rt; put(&rt, &extents, &mut disk, FIRST, 0, &[7; 9]), Ok(()));
    expect_runs(&rt, disk.blobs(), &[(9, 7), (4_087, 1), (4_096, 2)]);
    Ok(())
}

// The bytes of a file of 8,193 bytes with zeros behind them to the end of its last block, before and
// behind it.
#[test]
fn a_file_of_three_blocks(rt: HostRuntime) -> Result<(), Fail> {
    let alloc = rt.alloc();
    let mut extents = Extents::new(alloc);
    let mut disk = MemDisk::new(alloc);
    let mut file = vec![in alloc; 5u8; 8_193]?;
    file.resize(12_288, 0)?;
    assert_eq!(rt; extents.hold(0, 3), Ok(true));
    assert_eq!(rt; extents.hold(3, 3), Ok(true));
    for (first, length) in [(0, 12_288), (3, 24_576)] {
        let extent = Extent { first, length: 3 };
        assert_eq!(rt; put(&rt, &extents, &mut disk, extent, 0, &file), Ok(()));
        assert_eq!(rt; disk.blobs().len(), length);
    }
    let whole = [(8_193, 5), (4_095, 0), (8_193, 5), (4_095, 0)];
    expect_runs(&rt, disk.blobs(), &whole);
    Ok(())
}
