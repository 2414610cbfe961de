//! New extents for files.
ghost use Rattle.std.specs.Prelude.{◌≡◌, ◌≤◌, ◌<◌, ◌++◌, ◌∷◌, [], ℕ, All, IfOk, OnErr, OnOk, length, vec_len, vec_capacity};
ghost use Rattle.ov_disk.specs.Disk.{Image};
ghost use Rattle.ov_blocks.specs.Extents.{HasPlace};
ghost use Rattle.ov_moves.specs.Moves.{CanMoveAll, MayMoveAll};
ghost use Rattle.ov_moves.specs.declared.placing.TheConstants.{COUNTS};
ghost use Rattle.ov_moves.specs.Placing.{AreMovesOf, ArePlaced, HasPlaces, HoldsLowest, IsFiled, LiesIn, NoneBeforeStarts};

use crate::moves::Move;
use crate::releasing::release_new;
use ov_base::Memory;
use ov_base::limits::MAX_FILE_BYTES;
use ov_blocks::{BLOCK_BYTES, Extents, blocks_of};
use std::alloc::Global;

/// A file of so many bytes, and the first block of its extent, where it has one.
#[derive(Clone, Copy, Debug, PartialEq, Eq)]
pub struct Placed {
    /// The number of the file.
    pub file: u32,
    /// How many bytes it has.
    pub length: u32,
    /// The first block of its extent. A file that is created has none.
    pub first: Option<u32>,
}

// A file takes fewer blocks than this.
const COUNTS: usize = (MAX_FILE_BYTES / BLOCK_BYTES) as usize + 1;

// Holds the lowest free run of so many blocks. The search begins at the entry of `starts` for this
// number of blocks, where the last search for as many ended: no free run of so many begins before it.
fn hold_lowest(
    extents: &mut Extents,
    blocks: u32,
    starts: &mut [u32; COUNTS],
) -> Result<u32, Memory>
    requires place { HasPlace blocks extents.old }
    requires known { blocks < COUNTS }
    requires none { NoneBeforeStarts starts.old extents.old }
    ensures ok { IfOk result (λ first. HoldsLowest blocks first extents.old extents.new) }
    ensures none { OnOk result (NoneBeforeStarts starts.new extents.new) }
    ensures err { OnErr result (extents.new ≡ extents.old) }
{
    let first = extents.place_from(blocks, starts[blocks as usize]);
    let _is_free = extents.hold(first, blocks)?;
    starts[blocks as usize] = first + blocks;
    Ok(first)
}

// Pushes where there is room.
fn push_reserved(moves: &mut Vec<Move>, one: Move)
    requires { vec_len moves.old < vec_capacity moves.old }
    ensures { moves.new.items ≡ moves.old.items ++ one ∷ [] }
{
    let _ = moves.push(one);
}

// Finds and holds a new extent for each of these files. Where memory ends, the first ones have theirs.
fn place_each(extents: &mut Extents, files: &[Placed], moves: &mut Vec<Move>) -> Result<(), Memory>
    requires files { All (IsFiled extents.old) files.now }
    requires places { HasPlaces (length files.now) extents.old }
    requires none { moves.old.items ≡ [] }
    ensures first { ArePlaced (length moves.new.items) files.now extents.old extents.new
        moves.new.items }
    ensures few { length moves.new.items ≤ length files.now }
    ensures all { OnOk result (length moves.new.items ≡ length files.now) }
{
    if files.is_empty() {
        return Ok(());
    }
    let mut starts = [0; COUNTS];
    for one in files {
        moves.reserve(1)?;
        let to = hold_lowest(extents, blocks_of(one.length), &mut starts)?;
        push_reserved(
            moves,
            Move {
                file: one.file,
                length: one.length,
                from: one.first,
                to,
            },
        );
    }
    Ok(())
}

/// Finds and holds a new extent for each of these files, which can then be moved. Where memory ends,
/// it gives back what it held.
pub fn place_all(
    alloc: Global,
    extents: &mut Extents,
    files: &[Placed],
) -> Result<Vec<Move>, Memory>
    requires files { All (IsFiled extents.old) files.now }
    requires places { HasPlaces (length files.now) extents.old }
    ensures moves { IfOk result (λ moves. AreMovesOf files.now moves.items) }
    ensures may { IfOk result (λ moves. MayMoveAll extents.new moves.items) }
    // In each image in which all that was held lies in Blobs.
    ensures can { IfOk result (λ moves.
        (i : Image) → LiesIn extents.old i → CanMoveAll moves.items i) }
    ensures placed { IfOk result (λ moves.
        ArePlaced (length files.now) files.now extents.old extents.new moves.items) }
    ensures err { OnErr result (extents.new ≡ extents.old) }
{
    extents.known();
    let mut moves = Vec::new(alloc);
    match place_each(extents, files, &mut moves) {
        Ok(()) => Ok(moves),
        Err(memory) => {
            release_new(extents, &moves);
            extents.known();
            Err(memory)
        }
    }
}
