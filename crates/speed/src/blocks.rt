//! Places for new blocks among many extents that are held.
ghost use Rattle.std.specs.Prelude.{◌≤◌, All, IsTrue};
ghost use Rattle.ov_blocks.specs.Extents.{HasPlace};
ghost use Rattle.ov_blocks.specs.declared.extents.Extent.{Extent};
ghost use Rattle.ov_blocks.specs.declared.extents.TheConstants.{MAX_EXTENT_BLOCKS};

use ov_blocks::{Extent, Extents, MAX_EXTENT_BLOCKS, MAX_HELD};
use std::alloc::Global;
use std::test::Fail;

// Whether each of these extents is short enough beside a new one.
fn are_short(extents: &[Extent]) -> bool
    ensures { IsTrue result → All (λ (e : Extent). e.length ≤ MAX_EXTENT_BLOCKS) extents.now }
{
    extents
        .iter()
        .all(|extent| extent.length <= MAX_EXTENT_BLOCKS)
}

// Whether a place is found for so many blocks.
fn has_place(extents: &Extents, length: u32) -> bool
    ensures { IsTrue result → HasPlace length extents.now }
{
    let (front, back) = extents.held();
    let room = (MAX_HELD as usize).saturating_sub(back.len());
    let fits = length > 0 && length <= MAX_EXTENT_BLOCKS && front.len() <= room;
    fits && are_short(front) && are_short(back) && back.len() <= MAX_HELD as usize
}

// So many extents of one block, each with a free block behind it.
fn spread(alloc: Global, count: u16) -> Result<Extents, Fail> {
    let mut extents = Extents::new(alloc);
    for number in 0..count {
        extents.hold(2 * u32::from(number), 1)?;
    }
    Ok(extents)
}

// The place for two blocks behind so many extents, found 10,000 times: the sum of its numbers.
pub(crate) fn places(alloc: Global, count: u32) -> Result<usize, Fail> {
    let extents = spread(alloc, u16::try_from(count).unwrap_or(u16::MAX))?;
    let mut sum = 0usize;
    if has_place(&extents, 2) {
        for _ in 0..10_000u16 {
            sum = sum.wrapping_add(extents.place(2) as usize);
        }
    }
    Ok(sum)
}
