//! One file after the other.
ghost use Rattle.std.specs.Prelude.{◌≤◌, All, IsErr, OnOk, length};
ghost use Rattle.ov_disk.specs.Calls.{IsDiskCall};
ghost use Rattle.ov_disk.specs.Disk.{Told};
ghost use Rattle.ov_blocks.specs.Writes.{IsChangedIn, place_in_blobs};
ghost use Rattle.ov_moves.specs.Bytes.{rounded};
ghost use Rattle.ov_moves.specs.Moves.{CanMoveAll, CanMovePiece, HasRoomForPieces, HasText, IsKeptOutside, MayMove, MayMoveAll, MovesAll, MovesOne};
ghost use Rattle.ov_moves.specs.Runs.{GoesBy, TellsBoth};
ghost use Rattle.ov_moves.specs.declared.piece.TheConstants.{PIECE_BYTES};

use crate::piece::{PIECE_BYTES, move_piece, rounded};
use crate::turning::Turn;
use ov_blocks::Extents;
use ov_disk::{Disk, DiskFault};

/// A file of so many bytes that goes into another extent, or from a text into its first one.
#[derive(Clone, Copy, Debug, PartialEq, Eq)]
pub struct Move {
    /// The number of the file.
    pub file: u32,
    /// How many bytes it has.
    pub length: u32,
    /// The first block of its old extent. A file that has none gets the bytes of the text.
    pub from: Option<u32>,
    /// The first block of its new extent.
    pub to: u32,
}

/// How many bytes a buffer has that has room for each piece of these files.
pub(crate) fn buffer_bytes(moves: &[Move]) -> u32
    ensures room { All (HasRoomForPieces result) moves.now }
    ensures most { result ≤ PIECE_BYTES }
{
    let mut most = 0;
    for one in moves {
        let bytes = one.length.min(PIECE_BYTES);
        if bytes > most {
            most = bytes;
        }
    }
    rounded(most)
}

// Moves one file.
fn move_one<D: Disk, T: Turn>(
    extents: &Extents,
    disk: &mut D,
    turn: &T,
    text: &[u8],
    one: &Move,
    buf: &mut [u8],
) -> Result<(), DiskFault>
    requires may { MayMove extents.now one.now }
    requires has_text { HasText text.now one.now }
    requires room { HasRoomForPieces (length buf.old) one.now }
    requires there { Told (D.tells.reads disk.old) (CanMovePiece 0 one.now) }
    ensures moved { OnOk result (TellsBoth (D.tells.reads disk.old) (D.tells.reads disk.new)
        (MovesOne (T.turned turn.now) text.now one.now)) }
    ensures goes { GoesBy D.tells
        (IsChangedIn (place_in_blobs one.now.to 0) (rounded one.now.length)) disk.old disk.new }
    ensures call { IsDiskCall D.tells (IsErr result) disk.old disk.new }
{
    let pieces = (one.length + (PIECE_BYTES - 1)) / PIECE_BYTES;
    for piece in 0..pieces {
        move_piece(extents, disk, turn, text, one, piece * PIECE_BYTES, buf)?;
    }
    Ok(())
}

/// Moves all these files, in order: each piece of 65,536 bytes is read from the old extent, or
/// copied from the text, turned, and put into the new extent. It takes no memory and syncs nothing.
///
/// Whatever it answers, an image that a crash leaves meanwhile is one that it might have left at the
/// start but for the new extents: Book is the same, and no byte outside of them has changed. At `Ok`
/// Blobs has nothing behind its old end but bytes of new extents.
pub fn move_all<D: Disk, T: Turn>(
    extents: &Extents,
    disk: &mut D,
    turn: &T,
    text: &[u8],
    moves: &[Move],
    buf: &mut [u8],
) -> Result<(), DiskFault>
    requires may { MayMoveAll extents.now moves.now }
    requires has_text { All (HasText text.now) moves.now }
    requires room { All (HasRoomForPieces (length buf.old)) moves.now }
    requires there { Told (D.tells.reads disk.old) (CanMoveAll moves.now) }
    ensures moved { OnOk result (TellsBoth (D.tells.reads disk.old) (D.tells.reads disk.new)
        (MovesAll (T.turned turn.now) text.now moves.now)) }
    ensures goes { GoesBy D.tells (IsKeptOutside moves.now) disk.old disk.new }
    ensures call { IsDiskCall D.tells (IsErr result) disk.old disk.new }
{
    for one in moves {
        move_one(extents, disk, turn, text, one, buf)?;
    }
    Ok(())
}
