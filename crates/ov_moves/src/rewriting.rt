//! The whole of an update that moves files.
ghost use Rattle.std.specs.Prelude.{◌≡◌, ◌<◌, ◌^◌, ℕ, All, IfOk, IsErrOf, List, MatchResult, OnErr, OnOk, Some, false, length};
ghost use Rattle.ov_disk.specs.Calls.{IsDiskCall};
ghost use Rattle.ov_disk.specs.Disk.{Only, Told};
ghost use Rattle.ov_journal.specs.Log.{HasSameRecords, IsLogOf, Stands, appended};
ghost use Rattle.ov_journal.specs.Taking.{IsBody, MayTake};
ghost use Rattle.ov_journal.specs.declared.fault.CheckFault.TheVariants.{Disk as DiskFailed, Memory as NoMemory};
ghost use Rattle.ov_moves.specs.Moves.{CanMoveAll, HasRoomForPieces, HasText, MayMoveAll};
ghost use Rattle.ov_moves.specs.Placing.{GoToFree, HasNewText, HasPlaces, IsFiled, LiesIn};
ghost use Rattle.ov_moves.specs.Releasing.{AreDistinct, MayGoOn};
ghost use Rattle.ov_moves.specs.Rewriting.{LastsWith, SpellsBodies, StandsForEither};
ghost use Rattle.ov_moves.specs.Runs.{LeavesAtMost};
ghost use Rattle.ov_moves.specs.Updating.{IsBeforeOrAfterAll, IsMadeLast};

use crate::moves::{Move, buffer_bytes};
use crate::placing::{Placed, place_all};
use crate::releasing::{old_firsts, release_new};
use crate::spelling::Spell;
use crate::turning::Turn;
use crate::updating::update;
use ov_base::Memory;
use ov_blocks::Extents;
use ov_disk::Disk;
use ov_journal::{CheckFault, Journal};
use std::alloc::Global;

// Takes all memory that the update wants: the body of its record, a buffer, and room in the journal.
fn take_memory<S: Spell>(
    alloc: Global,
    journal: &mut Journal,
    moves: &[Move],
    spell: &S,
) -> Result<(Vec<u8>, Vec<u8>), Memory>
    requires whole { journal.old.bad ≡ false }
    requires count { length journal.old.offsets < 2 ^ 40 }
    requires body { IsBody (S.spelled spell.now moves.now) }
    ensures body { IfOk result (λ taken. taken.0.items ≡ S.spelled spell.now moves.now) }
    ensures buffer { IfOk result (λ taken. All (HasRoomForPieces (length taken.1.items)) moves.now) }
    ensures may { OnOk result (MayTake (S.spelled spell.now moves.now) journal.new) }
    ensures same { HasSameRecords journal.old journal.new }
    ensures stands { (book : List ℕ) → IsLogOf journal.old book → IsLogOf journal.new book }
    ensures err { OnErr result (journal.new ≡ journal.old) }
{
    let body = spell.spell(alloc, moves)?;
    let buf = vec![in alloc; 0_u8; buffer_bytes(moves) as usize]?;
    journal.reserve(body.len() as u32)?;
    Ok((body, buf))
}

// Takes the memory, and then makes the update.
fn spell_and_update<D: Disk, T: Turn, S: Spell>(
    alloc: Global,
    extents: &Extents,
    journal: &mut Journal,
    disk: &mut D,
    turn: &T,
    text: &[u8],
    moves: &[Move],
    spell: &S,
) -> Result<(), CheckFault>
    requires may { MayMoveAll extents.now moves.now }
    requires has_text { All (HasText text.now) moves.now }
    requires whole { journal.old.bad ≡ false }
    requires count { length journal.old.offsets < 2 ^ 40 }
    requires body { IsBody (S.spelled spell.now moves.now) }
    requires stands { Stands D.tells journal.old disk.old }
    requires there { Told (D.tells.reads disk.old) (CanMoveAll moves.now) }
    requires settled { Told (D.tells.reads disk.old) (λ i. Only i (D.tells.may_leave disk.old)) }
    ensures any_moment { LeavesAtMost D.tells
        (IsBeforeOrAfterAll (T.turned turn.now) text.now moves.now (S.spelled spell.now moves.now))
        disk.old disk.new }
    ensures lasts { OnOk result (Told (D.tells.reads disk.old)
        (IsMadeLast D.tells (T.turned turn.now) text.now moves.now (S.spelled spell.now moves.now)
        disk.new)) }
    ensures stands { OnOk result (Stands D.tells journal.new disk.new) }
    ensures log { MatchResult result
        (λ _. HasSameRecords (appended (length (S.spelled spell.now moves.now)) journal.old)
        journal.new)
        (λ _. HasSameRecords journal.old journal.new) }
    ensures memory { IsErrOf result NoMemory
        → (disk.new ≡ disk.old) × (journal.new ≡ journal.old) }
    ensures call { IsDiskCall D.tells (IsErrOf result DiskFailed) disk.old disk.new }
{
    let (body, mut buf) = take_memory(alloc, journal, moves, spell)?;
    update(extents, journal, disk, turn, text, moves, &mut buf, &body)?;
    Ok(())
}

/// Finds new extents for these files, writes their bytes there, turned, and then the record; and
/// gives up the old extents. All memory is taken before the first call of the disk. Unless it answers
/// `Ok`, it gives back the new extents, so that what is held is as before.
pub fn rewrite<D: Disk, T: Turn, S: Spell>(
    alloc: Global,
    extents: &mut Extents,
    journal: &mut Journal,
    disk: &mut D,
    turn: &T,
    text: &[u8],
    files: &[Placed],
    spell: &S,
) -> Result<Vec<Move>, CheckFault>
    requires files { All (IsFiled extents.old) files.now }
    requires distinct { AreDistinct files.now }
    requires places { HasPlaces (length files.now) extents.old }
    requires has_text { All (HasNewText text.now) files.now }
    requires whole { journal.old.bad ≡ false }
    requires count { length journal.old.offsets < 2 ^ 40 }
    requires body { SpellsBodies (S.spelled spell.now) files.now }
    requires stands { Stands D.tells journal.old disk.old }
    requires lies { Told (D.tells.reads disk.old) (LiesIn extents.old) }
    requires settled { Told (D.tells.reads disk.old) (λ i. Only i (D.tells.may_leave disk.old)) }

    // A crash at any moment leaves an image that stands for what the disk stood for, or for that
    // with the record.
    ensures any_moment { LeavesAtMost D.tells (StandsForEither (T.turned turn.now) text.now
        (S.spelled spell.now) extents.old files.now) disk.old disk.new }

    // At `Ok` it lasts with the record, each file is in its new extent, and Blobs has grown into new
    // extents alone.
    ensures moves { IfOk result (λ moves. GoToFree files.now extents.old moves.items) }
    ensures lasts { IfOk result (λ moves. Told (D.tells.reads disk.old)
        (LastsWith D.tells (T.turned turn.now) text.now (S.spelled spell.now moves.items)
        extents.old moves.items disk.new)) }

    // The next one may go on in the same way.
    ensures held { IfOk result (λ moves.
        MayGoOn files.now extents.old extents.new moves.items) }
    ensures lies { OnOk result (Told (D.tells.reads disk.new) (LiesIn extents.new)) }
    ensures stands { OnOk result (Stands D.tells journal.new disk.new) }
    ensures settled { OnOk result
        (Told (D.tells.reads disk.new) (λ i. Only i (D.tells.may_leave disk.new))) }

    // What it was given, unless it answers `Ok`.
    ensures given_back { OnErr result (extents.new ≡ extents.old) }
    ensures log { MatchResult result
        (λ moves. HasSameRecords (appended (length (S.spelled spell.now moves.items)) journal.old)
        journal.new)
        (λ _. HasSameRecords journal.old journal.new) }
    ensures memory { IsErrOf result NoMemory
        → (disk.new ≡ disk.old) × (journal.new ≡ journal.old) }

    ensures call { IsDiskCall D.tells (IsErrOf result DiskFailed) disk.old disk.new }
{
    extents.known();
    let gone = old_firsts(alloc, files)?;
    let moves = place_all(alloc, extents, files)?;
    extents.known();
    match spell_and_update(alloc, extents, journal, disk, turn, text, &moves, spell) {
        Ok(()) => {
            // Only now, with the record on the disk.
            extents.release_all(&gone);
            Ok(moves)
        }
        Err(fault) => {
            release_new(extents, &moves);
            extents.known();
            Err(fault)
        }
    }
}
