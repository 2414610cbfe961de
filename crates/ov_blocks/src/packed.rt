//! How far the held extents follow one another from block 0 on, with one gap at most.
ghost use Rattle.std.specs.Prelude.{◌≡◌, ◌≤◌, ◌<◌, List, length, take};
ghost use Rattle.std.specs.List.{insert, remove};
ghost use Rattle.ov_blocks.specs.Extents.{AreApart};
ghost use Rattle.ov_blocks.specs.Gaps.{HasNoneBefore, IsPacked, TellsShort, gap_at};
ghost use Rattle.ov_blocks.specs.Places.{IsBetween};
ghost use Rattle.ov_blocks.specs.declared.extents.Extent.{Extent};

use crate::extents::Extent;
use crate::free::end_before;

/// What is known of the gaps between held extents: the first `until` of them have no gap in front of
/// them, but for the one at `gap`, which may have one. So a search passes all of them by one look.
#[derive(Clone, Copy)]
pub(crate) struct Packed {
    gap: usize,
    until: usize,
}

// How many blocks are free right before the extent at this place.
fn gap_before(held: &[Extent], place: usize) -> u32
    requires apart { AreApart 0 held.now }
    requires inside { place < length held.now }
    ensures { result ≡ gap_at 0 held.now place }
{
    held[place].first - end_before(held, place)
}

impl Packed {
    /// Nothing is known of any gap.
    pub(crate) fn unknown() -> Packed
        ensures { (held : List Extent) → IsPacked result held }
    {
        Packed { gap: 0, until: 0 }
    }

    // Whether the gaps from this place on, as far as they are known, are all too short for so many
    // blocks.
    fn are_short(self, held: &[Extent], start: usize, blocks: u32) -> bool
        requires apart { AreApart 0 held.now }
        requires packed { IsPacked self held.now }
        requires some { 1 ≤ blocks }
        ensures { TellsShort self start blocks held.now result }
    {
        if self.gap < start || self.gap >= self.until {
            return true;
        }
        gap_before(held, self.gap) < blocks
    }

    /// The place to which a search for so many blocks goes on, which has passed the extents before
    /// `start`.
    pub(crate) fn passed(self, held: &[Extent], blocks: u32, start: usize) -> usize
        requires apart { AreApart 0 held.now }
        requires packed { IsPacked self held.now }
        requires some { 1 ≤ blocks }
        requires inside { start ≤ length held.now }
        requires none { HasNoneBefore start blocks held.now }
        ensures inside { result ≤ length held.now }
        ensures none { HasNoneBefore result blocks held.now }
    {
        if start >= self.until {
            return start;
        }
        if self.are_short(held, start, blocks) {
            return self.until;
        }
        self.gap
    }

    /// What is known of a list, of which this is known, once this extent stands in it, too, at this
    /// place. What stands before it is the same as in `held`.
    pub(crate) fn with(self, held: &[Extent], place: usize, extent: Extent) -> Packed
        requires apart { AreApart 0 held.now }
        requires few { self.until ≤ length held.now }
        requires inside { place ≤ length held.now }
        requires some { 1 ≤ extent.length }
        ensures { (list : List Extent) → IsPacked self list
            → IsBetween place extent.first extent.length list
            → take place list ≡ take place held.now → IsPacked result (insert list place extent) }
    {
        if place >= self.until {
            return self;
        }
        // It stands in the one gap. Where it leaves blocks free in front of it, it may leave some
        // behind it, too, and no more than the front is known then.
        if end_before(held, place) < extent.first {
            return Packed {
                gap: place,
                until: place + 1,
            };
        }
        Packed {
            gap: place + 1,
            until: self.until + 1,
        }
    }

    /// What is known once the extent at this place is given up.
    pub(crate) fn without(self, held: &[Extent], place: usize) -> Packed
        requires apart { AreApart 0 held.now }
        requires packed { IsPacked self held.now }
        requires inside { place < length held.now }
        ensures { IsPacked result (remove held.now place) }
    {
        if place >= self.until {
            return self;
        }
        // A gap right before it or behind it becomes one with its blocks.
        if self.gap == place || self.gap == place + 1 || self.are_short(held, 0, 1) {
            return Packed {
                gap: place,
                until: self.until - 1,
            };
        }
        // There are two gaps now: what stands behind the second isn't known any more.
        if self.gap < place {
            return Packed {
                gap: self.gap,
                until: place,
            };
        }
        Packed {
            gap: place,
            until: self.gap - 1,
        }
    }

    /// The same, and what a walk over the extents behind tells, up to the second gap.
    pub(crate) fn further(self, held: &[Extent]) -> Packed
        requires apart { AreApart 0 held.now }
        requires packed { IsPacked self held.now }
        ensures { IsPacked result held.now }
    {
        let mut gap = self.gap;
        for until in self.until..held.len() {
            if gap_before(held, until) > 0 {
                let packed = Packed { gap, until };
                if !packed.are_short(held, 0, 1) {
                    return packed;
                }
                gap = until;
            }
        }
        Packed {
            gap,
            until: held.len(),
        }
    }
}
