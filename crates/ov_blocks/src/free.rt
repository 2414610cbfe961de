//! Which blocks are free, by the extents that are held.
ghost use Rattle.std.specs.Prelude.{◌≡◌, ◌≤◌, ◌<◌, ◌+◌, ℕ, length, take};
ghost use Rattle.ov_blocks.specs.Extents.{AreApart, IsFree, end_from};
ghost use Rattle.ov_blocks.specs.Gaps.{IsPacked};
ghost use Rattle.ov_blocks.specs.Places.{IsCountBefore, IsLowest, TellsFree};
ghost use Rattle.ov_blocks.specs.declared.extents.TheConstants.{MAX_BLOCKS};

use crate::extents::Extent;
use crate::packed::Packed;

// The lowest first block of a free run, where none begins before `from`. One that begins there or
// behind it has no block of the last extent that begins before, and so begins behind that one's end.
// The walk begins there, or behind what is known to have no gap that is long enough.
pub(crate) fn lowest_run(held: &[Extent], packed: Packed, blocks: u32, from: u32) -> u32
    requires apart { AreApart 0 held.now }
    requires packed { IsPacked packed held.now }
    requires some { 1 ≤ blocks }
    requires none { (first : ℕ) → first < from → IsFree first blocks held.now → ⊥ }
    ensures { IsLowest result blocks held.now }
{
    let start = packed.passed(held, blocks, count_before(held, from));
    lowest_behind(&held[start..], end_before(held, start), blocks)
}

// The lowest first block, from `from` on, of a run that is free of these extents: behind the last
// one, unless an earlier gap is long enough.
fn lowest_behind(held: &[Extent], from: u32, blocks: u32) -> u32
    requires { AreApart from held.now }
    ensures behind { from ≤ result }
    ensures free { IsFree result blocks held.now }
    ensures lowest { (first : ℕ) → from ≤ first → first < result
        → IsFree first blocks held.now → ⊥ }
{
    let mut first = from;
    for extent in held {
        if extent.first - first >= blocks {
            return first;
        }
        first = extent.first + extent.length;
    }
    first
}

// Where the extent before this place ends, or block 0 where there is none.
pub(crate) fn end_before(held: &[Extent], place: usize) -> u32
    requires apart { AreApart 0 held.now }
    requires inside { place ≤ length held.now }
    ensures { result ≡ end_from 0 (take place held.now) }
{
    if place == 0 {
        return 0;
    }
    let before = held[place - 1];
    before.first + before.length
}

// How many of the extents begin before this block.
pub(crate) fn count_before(held: &[Extent], first: u32) -> usize
    requires { AreApart 0 held.now }
    ensures { IsCountBefore first result held.now }
{
    held.partition_point(|extent| extent.first < first)
}

// Whether the run is free, before whose first block so many of the extents begin.
pub(crate) fn is_free(held: &[Extent], place: usize, first: u32, length: u32) -> bool
    requires apart { AreApart 0 held.now }
    requires place { IsCountBefore first place held.now }
    requires some { 1 ≤ length }
    requires within { first + length ≤ MAX_BLOCKS }
    ensures { TellsFree place first length held.now result }
{
    if end_before(held, place) > first {
        return false;
    }
    if place < held.len() {
        let behind = held[place];
        if behind.first < first + length {
            return false;
        }
    }
    true
}
