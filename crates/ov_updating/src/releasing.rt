//! The extent of a file that is removed or replaced, which is given up.
ghost use Rattle.std.specs.Prelude.{◌≡◌, ◌≤◌, IfSome, Some, length};
ghost use Rattle.ov_blocks.specs.Extents.{BeginsOne, end_from};
ghost use Rattle.ov_moves.specs.Releasing.{GivesUp};

use ov_blocks::Extents;
use std::slice;

/// Gives up the extent with this first block, where there is one. It takes no memory.
pub(crate) fn release_at(extents: &mut Extents, first: Option<u32>)
    requires { IfSome first (BeginsOne extents.old) }
    ensures given { GivesUp (λ block. first ≡ Some block) extents.old extents.new }
    ensures few { length extents.new ≤ length extents.old }
    ensures ends { end_from 0 extents.new ≤ end_from 0 extents.old }
{
    extents.known();
    match first {
        Some(first) => extents.release_all(slice::from_ref(&first)),
        None => {}
    }
}
