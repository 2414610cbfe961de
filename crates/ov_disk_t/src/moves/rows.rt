//! A file that is created and rewritten twice.
ghost use Rattle.std.specs.Prelude.{◌≡◌, []};
ghost use Rattle.ov_disk.specs.Disk.{Only, Told};
ghost use Rattle.ov_journal.specs.Standing.{IsUnborn};

use super::asked::{born, is_alone, rewrite_one};
use super::turns::{Each, Same};
use crate::runs::expect_runs;
use ov_blocks::{Extent, Extents};
use ov_disk::{Disk, MemDisk};
use ov_journal::CheckFault;
use ov_moves::{Move, Placed};
use std::alloc::Global;
use std::process::Abort;
use std::test::Fail;

const LENGTH: u32 = 8_193;

fn file_at(first: Option<u32>) -> Placed {
    Placed {
        file: 0,
        length: LENGTH,
        first,
    }
}

// Whether there is one move, to this block.
fn goes_to(moves: &[Move], first: u32) -> bool {
    moves.len() == 1 && moves[0].to == first
}

// Creates a file in a new store, and rewrites it once and once more; the last bytes are all 9.
fn write<D: Disk>(
    rt: &impl Abort,
    alloc: Global,
    extents: &mut Extents,
    disk: &mut D,
    times: u32,
) -> Result<(), CheckFault>
    requires none { extents.old ≡ [] }
    requires unborn { Told (D.tells.reads disk.old) (λ i.
        IsUnborn i.book × Only i (D.tells.may_leave disk.old)) }
{
    let text = vec![in alloc; 7_u8; LENGTH as usize]?;
    let mut journal = born(alloc, disk)?;
    let files = [file_at(None)];
    let moves = rewrite_one(rt, alloc, extents, &mut journal, disk, &Same, &text, &files)?;
    assert!(rt; goes_to(&moves, 0));
    if times == 1 {
        return Ok(());
    }
    let files = [file_at(Some(0))];
    let moves = rewrite_one(rt, alloc, extents, &mut journal, disk, &Same, &[], &files)?;
    assert!(rt; goes_to(&moves, 3));
    if times == 2 {
        return Ok(());
    }
    let files = [file_at(Some(3))];
    let moves = rewrite_one(
        rt,
        alloc,
        extents,
        &mut journal,
        disk,
        &Each(9),
        &[],
        &files,
    )?;
    assert!(rt; goes_to(&moves, 0));
    Ok(())
}

// How often the file was written, where it is then, the length of Blobs, and the runs of bytes in it.
const ROWS: [(u32, u32, usize, &[(usize, u8)]); 3] = [
    (1, 0, 12_288, &[(8_193, 7), (4_095, 0)]),
    (
        2,
        3,
        24_576,
        &[(8_193, 7), (4_095, 0), (8_193, 7), (4_095, 0)],
    ),
    (
        3,
        0,
        24_576,
        &[(8_193, 9), (4_095, 0), (8_193, 7), (4_095, 0)],
    ),
];

#[test]
fn blocks_are_used_again(rt: HostRuntime) -> Result<(), Fail> {
    for (times, first, length, runs) in &ROWS {
        let mut extents = Extents::new(rt.alloc());
        let mut disk = MemDisk::new(rt.alloc());
        write(&rt, rt.alloc(), &mut extents, &mut disk, *times)?;
        let held = Extent {
            first: *first,
            length: 3,
        };
        assert!(rt; is_alone(&extents, held));
        assert_eq!(rt; disk.blobs().len(), *length);
        expect_runs(&rt, disk.blobs(), *runs);
    }
    Ok(())
}

// A birth makes 7 calls, a creation of one piece 5, and a rewriting of one piece 6: a read, a put, and
// the four of an append.
#[test]
fn faults_give_back_what_was_held(rt: HostRuntime) -> Result<(), Fail> {
    for call in 12..18_u64 {
        let mut extents = Extents::new(rt.alloc());
        let mut disk = MemDisk::new(rt.alloc());
        disk.fail_at(call)?;
        let done = write(&rt, rt.alloc(), &mut extents, &mut disk, 2);
        assert!(rt; done.is_err(), "{call}");
        let held = Extent {
            first: 0,
            length: 3,
        };
        assert!(rt; is_alone(&extents, held));
        let (front, _) = disk.blobs().split_at(12_288.min(disk.blobs().len()));
        expect_runs(&rt, front, &[(8_193, 7), (4_095, 0)]);
    }
    Ok(())
}
