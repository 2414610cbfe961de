//! Updates that are made on a disk, and then in the catalogue.
ghost use Rattle.std.specs.Prelude.{◌≡◌, ◌≤◌, ◌<◌, ◌-◌, ◌*◌, ◌^◌, false, IsErrOf, OnErr, OnOk, length};
ghost use Rattle.std.specs.Prelude.{vec_capacity, vec_len};
ghost use Rattle.ov_disk.specs.Calls.{IsDiskCall};
ghost use Rattle.ov_disk.specs.Disk.{Only, Told};
ghost use Rattle.ov_history.specs.Briefs.{brief, text_of};
ghost use Rattle.ov_history.specs.Places.{change_at};
ghost use Rattle.ov_history.specs.Placed.{first_if, left_if, replaced, takes_place, with_unplaced};
ghost use Rattle.ov_history.specs.Sent.{SealedUpdate};
ghost use Rattle.ov_journal.specs.Log.{Stands};
ghost use Rattle.ov_journal.specs.declared.fault.CheckFault.TheVariants.{Disk as DiskFailed, Memory as NoMemory};
ghost use Rattle.ov_moves.specs.Placing.{LiesIn};
ghost use Rattle.ov_moves.specs.Runs.{LeavesAtMost};
ghost use Rattle.ov_state.specs.Changes.{AreOfFiles, HasRoomFor};
ghost use Rattle.ov_state.specs.Entries.{plain_rewrites};
ghost use Rattle.ov_updating.specs.Files.{firsts_of, removed_by};
ghost use Rattle.ov_placed.specs.Contents.{HoldsTheSame};
ghost use Rattle.ov_placed.specs.Updating.{HasLogAfter, IsPrepared, KeepsOrGoesOn, MakesUpdate, bytes_of};

use crate::catalogue::CataloguePlaces;
use crate::exchanging::{make_room, unplace};
use crate::preparing::Prepared;
use ov_base::Octets;
use ov_disk::Disk;
use ov_journal::{CheckFault, Journal};
use ov_moves::Move;
use ov_recoat::Recoat;
use ov_state::{Rewrite, WIDTH};
use ov_tokens::Master;
use ov_updating::update;
use std::alloc::Global;

// The bytes of a text, where there is one.
fn bytes_of(text: &Option<Octets>) -> &[u8]
    ensures { result.now ≡ bytes_of text.now }
{
    match text {
        Some(text) => text.as_slice(),
        None => &[],
    }
}

// Adds the file of a text, where there is one, for which there is room; and takes the first block of
// the file of this number away, where there is a number. A replacement has both.
fn unplace_by(placed: &mut Vec<Option<u32>>, text: &Option<Octets>, removed: Option<u32>)
    requires { 1 ≤ vec_capacity placed.old - vec_len placed.old }
    ensures { (u : SealedUpdate) → text.now ≡ text_of u → removed ≡ removed_by (brief u)
        → placed.new.items ≡ with_unplaced placed.old.items (brief u) }
{
    unplace(placed, text.is_some(), removed);
}

// Where the first of these moves goes, and those that are left. A file with no byte has none.
fn next_move(length: u32, moves: &[Move]) -> (Option<u32>, &[Move])
    ensures first { result.0 ≡ first_if (takes_place length) (firsts_of moves.now) }
    ensures left { firsts_of result.1.now ≡ left_if (takes_place length) (firsts_of moves.now) }
{
    match moves {
        [one, left @ ..] if length > 0 => (Some(one.to), left),
        _ => (None, moves),
    }
}

// Puts this first block in place of that of a file.
fn put_one(placed: &mut Vec<Option<u32>>, file: u32, first: Option<u32>)
    requires { file < length placed.old.items }
    ensures { placed.new.items ≡ change_at (λ _. first) file placed.old.items }
{
    placed[file as usize] = first;
}

// Puts the next of these first blocks in place of the old one of each file.
fn put_firsts(placed: &mut Vec<Option<u32>>, rewrites: &[Rewrite], moves: &[Move])
    requires { AreOfFiles (length placed.old.items) rewrites.now }
    ensures { placed.new.items
        ≡ replaced (plain_rewrites rewrites.now) (firsts_of moves.now) placed.old.items }
{
    let mut left = moves;
    for rewrite in rewrites {
        let (first, rest) = next_move(rewrite.length, left);
        left = rest;
        put_one(placed, rewrite.file, first);
    }
}

impl CataloguePlaces {
    /// Makes an update that [`CataloguePlaces::prepare`] prepared, while all is as it was then: the
    /// new bytes of files go to the disk, into extents that were free, and then its record; and only
    /// then it is made here. All memory is taken before the first call of the disk.
    pub fn update<D: Disk>(
        &mut self,
        alloc: Global,
        disk: &mut D,
        journal: &mut Journal,
        surface: &Master,
        prepared: Prepared<WIDTH>,
    ) -> Result<(), CheckFault>
        requires prepared { (u : SealedUpdate)
            × IsPrepared (64 * WIDTH) surface.now.bytes self.old.catalogue u prepared }
        requires room { HasRoomFor self.old.room prepared.change }
        requires whole { journal.old.bad ≡ false }
        requires count { length journal.old.offsets < 2 ^ 40 }
        requires stands { Stands D.tells journal.old disk.old }
        requires lies { Told (D.tells.reads disk.old) (LiesIn self.old.held) }
        requires settled { Told (D.tells.reads disk.old) (λ i. Only i (D.tells.may_leave disk.old)) }

        // Where the disk tells its bytes, a crash at any moment leaves the history from before, or it
        // with the update.
        ensures any_moment { LeavesAtMost D.tells
            (KeepsOrGoesOn (64 * WIDTH) surface.now.bytes self.old prepared) disk.old disk.new }
        // At `Ok` it lasts with the update, which is made here too.
        ensures made { OnOk result (MakesUpdate D.tells (64 * WIDTH) surface.now.bytes self.old
            prepared disk.old disk.new self.new) }
        ensures stands { OnOk result (Stands D.tells journal.new disk.new) }
        ensures settled { OnOk result
            (Told (D.tells.reads disk.new) (λ i. Only i (D.tells.may_leave disk.new))) }

        ensures same { OnErr result (HoldsTheSame self.old self.new) }
        ensures log { HasLogAfter result journal.old journal.new }
        ensures memory { IsErrOf result NoMemory
            → (disk.new ≡ disk.old) × (journal.new ≡ journal.old) }
        ensures call { IsDiskCall D.tells (IsErrOf result DiskFailed) disk.old disk.new }
    {
        self.known();
        self.extents.known();
        make_room(&mut self.placed)?;
        let recoat = Recoat::new(surface, prepared.change.rewrites());
        let front = prepared.front.as_slice();
        let text = bytes_of(&prepared.text);
        let moves = update(
            alloc,
            &mut self.extents,
            journal,
            disk,
            &recoat,
            &self.placed,
            front,
            text,
            prepared.removed,
        )?;
        self.extents.known();
        unplace_by(&mut self.placed, &prepared.text, prepared.removed);
        put_firsts(&mut self.placed, prepared.change.rewrites(), &moves);
        self.catalogue.commit(prepared.change);
        Ok(())
    }
}
