//! The updates of a store with the bytes of their files, read again one by one.
ghost use Rattle.std.specs.Prelude.{◌≡◌, true, IfOk, IfSome, IsErrOf, length};
ghost use Rattle.ov_disk.specs.Calls.{IsDiskCall};
ghost use Rattle.ov_disk.specs.Disk.{Told};
ghost use Rattle.ov_disk.specs.Moments.{IsUntouched};
ghost use Rattle.ov_history.specs.Placed.{AllEndWithin};
ghost use Rattle.ov_history.specs.Sealed.{SealedHistory};
ghost use Rattle.ov_journal.specs.Log.{IsLogOfFirst};
ghost use Rattle.ov_record.specs.Briefs.{brief};
ghost use Rattle.ov_record.specs.Updates.{sealed_update};
ghost use Rattle.ov_state.specs.Plans.{IsFitting};
ghost use Rattle.ov_store.specs.Opened.{Serves};
ghost use Rattle.ov_store.specs.Owners.{is_gone_in};
ghost use Rattle.ov_store.specs.Updating.{IsCallOf};
ghost use Rattle.ov_store.specs.Wholes.{FindsWhole, HasZeros, ReadsWhole};
ghost use Rattle.ov_store.specs.declared.briefs.BriefFault.TheVariants.{Disk as DiskFailed};

use crate::briefs::{BriefFault, read_at};
use crate::store::Store;
use crate::texts::whole_update;
use ov_disk::Disk;
use ov_journal::{CheckFault, Journal};
use ov_placed::CataloguePlaces;
use ov_record::Update;
use ov_state::WIDTH;
use ov_tokens::Master;
use std::alloc::Global;

// The update of record `i` of the journal, with the text of the file of this number where it makes
// one, or zeros where the file is gone; None past the last record.
fn whole_at<D: Disk>(
    alloc: Global,
    disk: &mut D,
    journal: &Journal,
    placed: &CataloguePlaces,
    surface: &Master,
    i: u64,
    file: u32,
) -> Result<Option<Update<WIDTH>>, BriefFault>
    requires log { Told (D.tells.reads disk.old) (λ d. IsLogOfFirst journal.now d.book) }
    requires files { Told (D.tells.reads disk.old) (λ i.
        AllEndWithin (length i.blobs) placed.now.catalogue.files placed.now.placed) }
    ensures record { FindsWhole (D.tells.reads disk.old) surface.now.bytes journal.now placed.now
        i file result }
    ensures fits { IfOk result (λ found. IfSome found (λ whole.
        IsFitting (brief (sealed_update whole)))) }
    ensures zeros { IfOk result (λ found. IfSome found (λ whole.
        is_gone_in placed.now.catalogue file ≡ true → HasZeros (sealed_update whole))) }
    ensures untouched { IsUntouched D.tells disk.old disk.new }
    ensures call { IsDiskCall D.tells (IsErrOf result DiskFailed) disk.old disk.new }
{
    match read_at(alloc, disk, journal, i) {
        Ok(Some(brief)) => match whole_update(alloc, disk, placed, surface, brief, file) {
            Ok(Some(whole)) => Ok(Some(whole)),
            Ok(None) => Err(BriefFault::Changed {
                offset: journal.offset(i),
            }),
            Err(CheckFault::Disk) => Err(BriefFault::Disk),
            Err(CheckFault::Memory) => Err(BriefFault::Memory),
        },
        Ok(None) => Ok(None),
        Err(fault) => Err(fault),
    }
}

impl<D: Disk> Store<D> {
    /// Update number `i`, counted from 0, as its owner sent it; None where there are no more. `file` is
    /// how many numbers were given to files before it: the number of the file that it makes, if it
    /// makes one. A record has no such number, and counting the creations before it would take a
    /// second pass over Book, so the caller counts.
    ///
    /// Of a file that is gone by now the store has no bytes, since later files took its blocks: its
    /// update comes with as many zeros, under the tag of its record.
    pub fn whole(
        &mut self,
        alloc: Global,
        i: u64,
        file: u32,
    ) -> Result<Option<Update<WIDTH>>, BriefFault>
        ensures update { ReadsWhole D.tells self.old i file result }
        ensures fits { IfOk result (λ found. IfSome found (λ whole.
            IsFitting (brief (sealed_update whole)))) }
        // Whatever the disk tells: of a file that is gone all bytes are zeros.
        ensures zeros { IfOk result (λ found. IfSome found (λ whole.
            is_gone_in self.old.catalogue file ≡ true → HasZeros (sealed_update whole))) }

        // Nothing is written, and the store stands for what it stood for.
        ensures kept { self.new ≡ record self.old { disk = self.new.disk } }
        ensures untouched { IsUntouched D.tells self.old.disk self.new.disk }
        ensures served { (g : SealedHistory) → Serves D.tells g self.old
            → Serves D.tells g self.new }
        ensures call { IsCallOf D.tells self.old self.new (IsErrOf result DiskFailed) }
    {
        whole_at(
            alloc,
            &mut self.disk,
            &self.journal,
            &self.placed,
            &self.surface,
            i,
            file,
        )
    }
}
