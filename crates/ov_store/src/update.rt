//! Updates, which are written down before they are made.
ghost use Rattle.std.specs.Prelude.{◌≡◌, OnOk, IsErrOf};
ghost use Rattle.ov_disk.specs.Disk.{StaysTold};
ghost use Rattle.ov_record.specs.Briefs.{brief};
ghost use Rattle.ov_record.specs.Updates.{sealed_update};
ghost use Rattle.ov_state.specs.Plans.{IsFitting};
ghost use Rattle.ov_store.specs.Carrying.{IsCarriedOver, LeavesStep};
ghost use Rattle.ov_store.specs.Updating.{GoesOnAfter, IsCallOf, LeavesEither, ServesMore, Updates};
ghost use Rattle.ov_store.specs.declared.fault.StoreFault.TheVariants.{Disk};

use crate::fault::StoreFault;
use crate::store::Store;
use ov_disk::Disk;
use ov_journal::CheckFault;
use ov_record::Update;
use ov_state::WIDTH;
use std::alloc::Global;

impl<D: Disk> Store<D> {
    /// Makes an update, and answers the epoch after it. The update is on the disk before it is
    /// made, so that one which is answered with `Ok` outlasts each later stop.
    ///
    /// After [`StoreFault::Disk`] the disk may have the update or not, and the store makes no more
    /// of them: open it again.
    pub fn update(&mut self, alloc: Global, update: Update<WIDTH>) -> Result<u32, StoreFault>
        requires { IsFitting (brief (sealed_update update)) }

        ensures answer { Updates (sealed_update update) self.old self.new result }
        ensures state { GoesOnAfter result self.old self.new }

        // A crash at any moment of the call leaves the history from before, or it with this update.
        ensures any_moment { LeavesEither D.tells (sealed_update update) self.old self.new }
        // At `Ok` the history with the update lasts.
        ensures served { OnOk result
            (ServesMore D.tells (sealed_update update) self.old self.new) }
        // Whatever a crash leaves is of the format from before. At `Ok` a store of the first format
        // has a step record, in front of its first record in the second form.
        ensures step { LeavesStep D.tells self.old self.new }
        ensures carried { OnOk result (IsCarriedOver D.tells self.old self.new) }
        // A disk that told its bytes still tells them, whatever is answered.
        ensures told { StaysTold (D.tells.reads self.old.disk) (D.tells.reads self.new.disk) }

        ensures call { IsCallOf D.tells self.old self.new (IsErrOf result Disk) }
    {
        if self.failed {
            return Err(StoreFault::Failed);
        }
        self.placed.known();
        let prepared = self.placed.prepare(alloc, &self.surface, update)?;
        self.placed.known();
        match self.placed.update(
            alloc,
            &mut self.disk,
            &mut self.journal,
            &self.surface,
            prepared,
        ) {
            Ok(()) => {}
            Err(CheckFault::Memory) => return Err(StoreFault::Memory),
            Err(CheckFault::Disk) => {
                self.failed = true;
                return Err(StoreFault::Disk);
            }
        }
        Ok(self.placed.catalogue().epoch())
    }
}
