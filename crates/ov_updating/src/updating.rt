//! One update.
ghost use Rattle.std.specs.Prelude.{◌≡◌, ◌<◌, ◌^◌, IfOk, IsErrOf, MatchResult, OnErr, OnOk, false, length};
ghost use Rattle.ov_disk.specs.Calls.{IsDiskCall};
ghost use Rattle.ov_disk.specs.Disk.{Only, Told};
ghost use Rattle.ov_journal.specs.Log.{HasSameRecords, Stands, appended};
ghost use Rattle.ov_journal.specs.declared.fault.CheckFault.TheVariants.{Disk as DiskFailed, Memory as NoMemory};
ghost use Rattle.ov_moves.specs.Placing.{GoToFree, LiesIn};
ghost use Rattle.ov_moves.specs.Runs.{LeavesAtMost};
ghost use Rattle.ov_updating.specs.Files.{files_of, firsts_of};
ghost use Rattle.ov_updating.specs.Recording.{body_with};
ghost use Rattle.ov_updating.specs.Updating.{AreHeldAfter, IsAsked, KeepsItOrMore, UpdateLasts, asked};

use crate::files::{first_at, list_files};
use crate::recording::Recording;
use crate::releasing::release_at;
use ov_blocks::Extents;
use ov_disk::Disk;
use ov_journal::{CheckFault, Journal};
use ov_moves::{Move, rewrite};
use ov_recoat::Recoat;
use std::alloc::Global;

/// Makes an update on the disk: finds new extents for the files of these rewrites, writes their bytes
/// there under their new surfaces, and then the record, and gives up the old extents, and that of the
/// file that the update removes or replaces. It answers where the files went.
///
/// The first blocks of all files are by number; `front` is the update's spelling, `text` the bytes of
/// a new file, and `removed` the number of the file that is removed or replaced, where one is. All
/// memory is taken before the first call of the disk.
pub fn update<D: Disk>(
    alloc: Global,
    extents: &mut Extents,
    journal: &mut Journal,
    disk: &mut D,
    recoat: &Recoat,
    placed: &[Option<u32>],
    front: &[u8],
    text: &[u8],
    removed: Option<u32>,
) -> Result<Vec<Move>, CheckFault>
    requires asked { IsAsked
        (asked recoat.now.rewrites placed.now extents.old front.now text.now removed) }
    requires whole { journal.old.bad ≡ false }
    requires count { length journal.old.offsets < 2 ^ 40 }
    requires stands { Stands D.tells journal.old disk.old }
    requires lies { Told (D.tells.reads disk.old) (LiesIn extents.old) }
    requires settled { Told (D.tells.reads disk.old) (λ i. Only i (D.tells.may_leave disk.old)) }

    // Where the disk tells its bytes, a crash at any moment leaves an image that keeps the history
    // from before, or it with the update.
    ensures any_moment { LeavesAtMost D.tells (KeepsItOrMore recoat.now.master
        (asked recoat.now.rewrites placed.now extents.old front.now text.now removed))
        disk.old disk.new }

    // At `Ok` the history with the update lasts, and the files of its rewrites have gone there, each
    // into the lowest run of free blocks.
    ensures moves { IfOk result (λ moves.
        GoToFree (files_of placed.now recoat.now.rewrites) extents.old moves.items) }
    ensures lasts { IfOk result (λ moves. Told (D.tells.reads disk.old)
        (UpdateLasts D.tells recoat.now.master
        (asked recoat.now.rewrites placed.now extents.old front.now text.now removed)
        moves.items disk.new)) }

    // The next one may be made in the same way. The blocks of a file that is removed or replaced are
    // free for it.
    ensures held { IfOk result (λ moves. AreHeldAfter
        (asked recoat.now.rewrites placed.now extents.old front.now text.now removed)
        (firsts_of moves.items) extents.new) }
    ensures lies { OnOk result (Told (D.tells.reads disk.new) (LiesIn extents.new)) }
    ensures stands { OnOk result (Stands D.tells journal.new disk.new) }
    ensures settled { OnOk result
        (Told (D.tells.reads disk.new) (λ i. Only i (D.tells.may_leave disk.new))) }

    // What it was given, unless it answers `Ok`.
    ensures given_back { OnErr result (extents.new ≡ extents.old) }
    ensures log { MatchResult result
        (λ moves. HasSameRecords
        (appended (length (body_with front.now moves.items)) journal.old) journal.new)
        (λ _. HasSameRecords journal.old journal.new) }
    ensures memory { IsErrOf result NoMemory
        → (disk.new ≡ disk.old) × (journal.new ≡ journal.old) }

    ensures call { IsDiskCall D.tells (IsErrOf result DiskFailed) disk.old disk.new }
{
    let files = list_files(alloc, placed, recoat.rewrites())?;
    let recording = Recording { front };
    let moves = rewrite(
        alloc, extents, journal, disk, recoat, text, &files, &recording,
    )?;
    // Only now, with the record on the disk: until then a crash may leave the store with this file.
    release_at(extents, first_at(placed, removed));
    Ok(moves)
}
