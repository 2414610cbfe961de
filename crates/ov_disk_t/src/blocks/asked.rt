//! The calls of extents behind a test that they may be made.
ghost use Rattle.std.specs.Prelude.{◌≡◌, All, IsTrue};
ghost use Rattle.std.specs.List.Sorted.{IsStrictlyIncreasing};
ghost use Rattle.ov_blocks.specs.Extents.{BeginsOne, HasPlace, IsInside};
ghost use Rattle.ov_blocks.specs.Writes.{place_in_blobs};

use crate::held::{are_short, is_held};
use ov_blocks::{BLOCK_BYTES, Extent, Extents, MAX_EXTENT_BLOCKS, MAX_HELD};
use ov_disk::{DiskFault, MemDisk};
use std::process::Abort;

// Whether a place is found for so many blocks.
fn has_place(extents: &Extents, length: u32) -> bool
    ensures { IsTrue result → HasPlace length extents.now }
{
    let (front, back) = extents.held();
    let room = (MAX_HELD as usize).saturating_sub(back.len());
    let fits = length > 0 && length <= MAX_EXTENT_BLOCKS && front.len() <= room;
    fits && are_short(front) && are_short(back) && back.len() <= MAX_HELD as usize
}

/// How many extents are held.
pub fn count(extents: &Extents) -> usize {
    let (front, back) = extents.held();
    front.len().saturating_add(back.len())
}

/// Whether just these extents are held, each with its first block and its length.
pub fn are_held(extents: &Extents, rows: &[(u32, u32)]) -> bool {
    let (front, back) = extents.held();
    let held = front
        .iter()
        .chain(back)
        .map(|extent| (extent.first, extent.length));
    held.eq(rows.iter().copied())
}

/// The place for so many blocks.
pub fn place(rt: &impl Abort, extents: &Extents, length: u32) -> u32 {
    assert!(rt; has_place(extents, length));
    extents.place(length)
}

/// The same, by a search from a block on before which no run of so many free blocks begins.
pub fn place_from(rt: &impl Abort, extents: &Extents, length: u32, from: u32) -> u32 {
    assert!(rt; has_place(extents, length));
    let first = extents.place(length);
    assert!(rt; from <= first);
    extents.place_from(length, from)
}

/// Gives up an extent.
pub fn release(rt: &impl Abort, extents: &mut Extents, first: u32, length: u32) {
    assert!(rt; is_held(extents, Extent { first, length }));
    extents.release(first, length);
}

// Whether the blocks rise.
fn rise(blocks: &[u32]) -> bool
    ensures { IsTrue result → IsStrictlyIncreasing blocks.now }
{
    (1..blocks.len()).all(|k| blocks[k - 1] < blocks[k])
}

// Whether an extent that is held begins at this block.
fn begins_one(extents: &Extents, block: &u32) -> bool
    ensures { IsTrue result → BeginsOne extents.now block.now }
{
    let (front, back) = extents.held();
    front.iter().chain(back).any(|one| one.first == *block)
}

// Whether an extent that is held begins at each of these blocks.
fn begin_each(extents: &Extents, blocks: &[u32]) -> bool
    ensures { IsTrue result → All (BeginsOne extents.now) blocks.now }
{
    blocks.iter().all(|block| begins_one(extents, block))
}

/// Gives up the extents that begin at these blocks.
pub fn release_all(rt: &impl Abort, extents: &mut Extents, gone: &[u32]) {
    assert!(rt; rise(gone));
    assert!(rt; begin_each(extents, gone));
    extents.release_all(gone);
}

// Whether the extent is held, and has so many bytes from `start` on.
fn is_inside(extents: &Extents, extent: Extent, start: u32, count: usize) -> bool
    ensures { IsTrue result → IsInside extent.first start count extents.now }
{
    let room = u64::from(BLOCK_BYTES) * u64::from(extent.length);
    let start = u64::from(start);
    is_held(extents, extent) && start <= room && count as u64 <= room - start
}

// The place in Blobs of a byte of this extent.
fn place_of(extent: Extent, start: u32) -> u64
    ensures { result ≡ place_in_blobs extent.first start }
{
    u64::from(BLOCK_BYTES) * u64::from(extent.first) + u64::from(start)
}

/// Writes into an extent.
pub fn put(
    rt: &impl Abort,
    extents: &Extents,
    disk: &mut MemDisk,
    extent: Extent,
    start: u32,
    bytes: &[u8],
) -> Result<(), DiskFault> {
    assert!(rt; is_inside(extents, extent, start, bytes.len()));
    assert!(rt; place_of(extent, start) <= disk.blobs().len() as u64);
    extents.put(disk, extent.first, start, bytes)
}

/// Reads from an extent.
pub fn read(
    rt: &impl Abort,
    extents: &Extents,
    disk: &mut MemDisk,
    extent: Extent,
    start: u32,
    buf: &mut [u8],
) -> Result<(), DiskFault> {
    assert!(rt; is_inside(extents, extent, start, buf.len()));
    assert!(rt; place_of(extent, start) + buf.len() as u64 <= disk.blobs().len() as u64);
    extents.read(disk, extent.first, start, buf)
}
