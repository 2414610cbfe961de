//! Extents that are given up.
ghost use Rattle.std.specs.Prelude.{All, Contains, IfOk, length};
ghost use Rattle.ov_moves.specs.Bytes.{new_extent};
ghost use Rattle.ov_moves.specs.Releasing.{AreDistinct, AreOldFirsts, BeginsNew, GivesUp, GoApart};
ghost use Rattle.ov_moves.specs.declared.moves.Move.{Move};

use crate::moves::Move;
use crate::placing::Placed;
use ov_base::Memory;
use ov_blocks::{Extents, blocks_of};
use std::alloc::Global;

/// The first blocks of the extents of these files, in ascending order.
pub(crate) fn old_firsts(alloc: Global, files: &[Placed]) -> Result<Vec<u32>, Memory>
    requires { AreDistinct files.now }
    ensures { IfOk result (λ firsts. AreOldFirsts files.now firsts.items) }
{
    let mut firsts = Vec::new(alloc);
    for one in files {
        if let Some(first) = one.first {
            firsts.push(first)?;
        }
    }
    firsts.sort_unstable();
    Ok(firsts)
}

/// Gives up the new extents of all these moves. It takes no memory.
pub fn release_new(extents: &mut Extents, moves: &[Move])
    requires held { All (λ (m : Move). Contains extents.old (new_extent m)) moves.now }
    requires distinct { GoApart moves.now }
    ensures { GivesUp (BeginsNew (length moves.now) moves.now) extents.old extents.new }
{
    for one in moves {
        extents.known();
        extents.release(one.to, blocks_of(one.length));
    }
}
