//! A list of extents in the order of their places, with what is known of the gaps between them.
ghost use Rattle.std.specs.Prelude.{◌≡◌, ◌≤◌, ◌<◌, ◌+◌, ℕ, [], All, IfOk, OnErr, length};
ghost use Rattle.std.specs.List.{insert, remove};
ghost use Rattle.std.specs.List.Sorted.{IsStrictlyIncreasing};
ghost use Rattle.ov_blocks.specs.Extents.{AreApart, AreGivenUp, BeginsOne, Holds, IsFree};
ghost use Rattle.ov_blocks.specs.Places.{IsBetween, IsLowest, TellsNone};
ghost use Rattle.ov_blocks.specs.Slots.{HasSlot, without};
ghost use Rattle.ov_blocks.specs.declared.extents.TheConstants.{MAX_BLOCKS};

use crate::extents::Extent;
use crate::free::{count_before, is_free, lowest_run};
use crate::packed::Packed;
use ov_base::Memory;
use std::alloc::Global;
use std::marker::Model;

/// Extents in the order of their places.
#[derive(Drop)]
pub(crate) struct Slots {
    extents: Vec<Extent>,
    // What is known of the gaps between them.
    packed: Packed,
}

impl Model for Slots {
    ghost use Rattle.std.specs.Prelude.{List};
    ghost use Rattle.ov_blocks.specs.declared.extents.Extent.{Extent};
    ghost use Rattle.ov_blocks.specs.Extents.{AreApart};
    ghost use Rattle.ov_blocks.specs.Gaps.{IsPacked};

    ghost Value = { List Extent };

    ghost view = { λ s. s.extents.items };

    ghost invariant = { λ s. AreApart 0 s.extents.items × IsPacked s.packed s.extents.items };
}

// Whether the block is none of these, which rise.
fn is_none_of(block: u32, blocks: &[u32]) -> bool
    requires { IsStrictlyIncreasing blocks.now }
    ensures { TellsNone block blocks.now result }
{
    blocks.binary_search(&block).is_err()
}

impl Slots {
    /// No extents.
    pub(crate) fn new(alloc: Global) -> Slots
        ensures { result ≡ [] }
    {
        Slots {
            extents: Vec::new(alloc),
            packed: Packed::unknown(),
        }
    }

    /// The extents.
    pub(crate) fn as_slice(&self) -> &[Extent]
        ensures same { result.now ≡ self.now }
        ensures apart { AreApart 0 self.now }
    {
        &self.extents
    }

    /// The first block of the lowest run that is free of all of them, where none begins before `from`.
    pub(crate) fn lowest_run(&self, blocks: u32, from: u32) -> u32
        requires some { 1 ≤ blocks }
        requires none { (first : ℕ) → first < from → IsFree first blocks self.now → ⊥ }
        ensures { IsLowest result blocks self.now }
    {
        lowest_run(&self.extents, self.packed, blocks, from)
    }

    /// Takes an extent in at its place, unless one of its blocks is in use.
    pub(crate) fn hold(&mut self, first: u32, length: u32) -> Result<bool, Memory>
        requires some { 1 ≤ length }
        requires within { first + length ≤ MAX_BLOCKS }
        ensures ok { IfOk result
            (Holds (record { first = first; length = length }) self.old self.new) }
        ensures err { OnErr result (self.new ≡ self.old) }
    {
        let place = count_before(&self.extents, first);
        if !is_free(&self.extents, place, first, length) {
            return Ok(false);
        }
        let extent = Extent { first, length };
        let packed = self.packed.with(&self.extents, place, extent);
        self.extents.insert(place, extent)?;
        self.packed = packed.further(&self.extents);
        Ok(true)
    }

    /// Puts an extent into the slot of another. Nothing moves.
    pub(crate) fn replace(&mut self, place: usize, extent: Extent)
        requires inside { place < length self.old }
        requires some { 1 ≤ extent.length }
        requires within { extent.first + extent.length ≤ MAX_BLOCKS }
        requires between { IsBetween place extent.first extent.length (remove self.old place) }
        ensures { self.new ≡ insert (remove self.old place) place extent }
    {
        // Where it is the same, all that is known of the gaps stays known.
        if self.extents[place] == extent {
            return;
        }
        let without = self.packed.without(&self.extents, place);
        let packed = without.with(&self.extents, place, extent);
        self.extents[place] = extent;
        self.packed = packed.further(&self.extents);
    }

    /// Takes away the slot of the extent that was given up, if one was.
    pub(crate) fn close(&mut self, gone: Option<usize>)
        requires { HasSlot gone self.old }
        ensures { self.new ≡ without gone self.old }
    {
        if let Some(place) = gone {
            self.packed = self.packed.without(&self.extents, place);
            let _extent = self.extents.remove(place);
        }
    }

    /// Takes away those that begin at these blocks, in one walk over all of them. Many gaps may
    /// arise, so none is known then.
    pub(crate) fn keep_others(&mut self, gone: &[u32])
        requires rise { IsStrictlyIncreasing gone.now }
        requires held { All (BeginsOne self.old) gone.now }
        ensures { AreGivenUp gone.now self.old self.new }
    {
        self.packed = Packed::unknown();
        self.extents.retain(|extent| is_none_of(extent.first, gone));
    }
}
