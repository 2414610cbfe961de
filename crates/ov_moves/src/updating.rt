//! Files that are moved, and then the record that says so.
ghost use Rattle.std.specs.Prelude.{◌≡◌, All, IsErr, MatchResult, OnOk, length};
ghost use Rattle.ov_disk.specs.Calls.{IsDiskCall};
ghost use Rattle.ov_disk.specs.Disk.{Only, Told};
ghost use Rattle.ov_journal.specs.Log.{Stands, appended};
ghost use Rattle.ov_journal.specs.Taking.{MayTake};
ghost use Rattle.ov_moves.specs.Moves.{CanMoveAll, HasRoomForPieces, HasText, MayMoveAll};
ghost use Rattle.ov_moves.specs.Runs.{LeavesAtMost};
ghost use Rattle.ov_moves.specs.Updating.{IsBeforeOrAfterAll, IsMadeLast};

use crate::moves::{Move, move_all};
use crate::turning::Turn;
use ov_blocks::Extents;
use ov_disk::{Disk, DiskFault};
use ov_journal::Journal;

/// Moves all these files, and adds the record behind them. It takes no memory.
///
/// No sync comes between the files and the record: the first sync of the append makes the files last,
/// and only then is the record's gate opened.
pub fn update<D: Disk, T: Turn>(
    extents: &Extents,
    journal: &mut Journal,
    disk: &mut D,
    turn: &T,
    text: &[u8],
    moves: &[Move],
    buf: &mut [u8],
    body: &[u8],
) -> Result<(), DiskFault>
    requires may { MayMoveAll extents.now moves.now }
    requires has_text { All (HasText text.now) moves.now }
    requires room { All (HasRoomForPieces (length buf.old)) moves.now }
    requires body { MayTake body.now journal.old }
    requires stands { Stands D.tells journal.old disk.old }
    requires there { Told (D.tells.reads disk.old) (CanMoveAll moves.now) }
    requires settled { Told (D.tells.reads disk.old) (λ i. Only i (D.tells.may_leave disk.old)) }

    // A crash at any moment leaves what was there outside of the new extents, with the records from
    // before; or the records with this one, each file moved, and no other bytes behind the old end.
    ensures any_moment { LeavesAtMost D.tells
        (IsBeforeOrAfterAll (T.turned turn.now) text.now moves.now body.now) disk.old disk.new }

    // At `Ok` there is one image that a crash may leave, the second of these.
    ensures lasts { OnOk result (Told (D.tells.reads disk.old)
        (IsMadeLast D.tells (T.turned turn.now) text.now moves.now body.now disk.new)) }
    ensures stands { OnOk result (Stands D.tells journal.new disk.new) }
    ensures log { MatchResult result
        (λ _. journal.new ≡ appended (length body.now) journal.old)
        (λ _. journal.new ≡ journal.old) }

    ensures call { IsDiskCall D.tells (IsErr result) disk.old disk.new }
{
    move_all(extents, disk, turn, text, moves, buf)?;
    journal.append(disk, body)
}
