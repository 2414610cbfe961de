//! Which extents are held, for tests that ask before a call.
ghost use Rattle.std.specs.Prelude.{◌≤◌, All, Contains, IsTrue};
ghost use Rattle.ov_blocks.specs.declared.extents.Extent.{Extent};
ghost use Rattle.ov_blocks.specs.declared.extents.TheConstants.{MAX_EXTENT_BLOCKS};

use ov_blocks::{Extent, Extents, MAX_EXTENT_BLOCKS};

/// Whether each of these extents is short enough beside a new one.
pub fn are_short(extents: &[Extent]) -> bool
    ensures { IsTrue result → All (λ (e : Extent). e.length ≤ MAX_EXTENT_BLOCKS) extents.now }
{
    extents
        .iter()
        .all(|extent| extent.length <= MAX_EXTENT_BLOCKS)
}

/// Whether the extent is held.
pub fn is_held(extents: &Extents, extent: Extent) -> bool
    ensures { IsTrue result → Contains extents.now extent }
{
    let (front, back) = extents.held();
    front.iter().chain(back).any(|other| *other == extent)
}
