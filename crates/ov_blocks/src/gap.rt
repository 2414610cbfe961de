//! The gap that is there without one of the extents.
ghost use Rattle.std.specs.Prelude.{◌≡◌, ◌≤◌, ◌<◌, ◌+◌, ℕ, length};
ghost use Rattle.std.specs.List.{remove};
ghost use Rattle.ov_blocks.specs.Extents.{AreApart};
ghost use Rattle.ov_blocks.specs.Places.{IsLowest, TellsBetween};
ghost use Rattle.ov_blocks.specs.declared.extents.TheConstants.{MAX_BLOCKS, MAX_EXTENT_BLOCKS};

use crate::extents::Extent;
use crate::free::end_before;

// Whether the run lies in the gap that is there without the extent at this place.
pub(crate) fn fits(held: &[Extent], place: usize, first: u32, blocks: u32) -> bool
    requires apart { AreApart 0 held.now }
    requires inside { place < length held.now }
    requires within { first + blocks ≤ MAX_BLOCKS + MAX_EXTENT_BLOCKS }
    ensures { TellsBetween place first blocks (remove held.now place) result }
{
    if end_before(held, place) > first {
        return false;
    }
    if place + 1 < held.len() {
        let behind = held[place + 1];
        if behind.first < first + blocks {
            return false;
        }
    }
    true
}

// The first block of the lowest run that is free without the extent at this place, by that of the
// lowest that is free of all.
pub(crate) fn lowest_without(held: &[Extent], place: usize, blocks: u32, lowest: u32) -> u32
    requires apart { AreApart 0 held.now }
    requires inside { place < length held.now }
    requires short { blocks ≤ MAX_EXTENT_BLOCKS }
    requires lowest { IsLowest lowest blocks held.now }
    ensures { IsLowest result blocks (remove held.now place) }
{
    let start = end_before(held, place);
    if start < lowest && fits(held, place, start, blocks) {
        return start;
    }
    lowest
}
