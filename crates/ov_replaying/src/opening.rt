//! The opening of a store whose updates are to be read again.
ghost use Rattle.std.specs.Prelude.{IfErr, IfOk};
ghost use Rattle.ov_disk.specs.Calls.{IsDiskCall};
ghost use Rattle.ov_disk.specs.Disk.{Told};
ghost use Rattle.ov_disk.specs.Moments.{LeavesOnly};
ghost use Rattle.ov_machine.specs.Machine.{plain_masters};
ghost use Rattle.ov_replaying.specs.Opening.{IsOpenOf, RefusesStore};
ghost use Rattle.ov_store.specs.Beginning.{IsDiskFault, disk_left};

use ov_answering::{base_check_of, checked};
use ov_disk::Disk;
use ov_keyfile::Masters;
use ov_report::values_are_known;
use ov_store::{BeginRefused, Store};
use std::alloc::Global;

/// Opens the store on this disk under the two masters, where all its records are those of their
/// owner. The disk is handed back with a refusal, and nothing is written to it.
pub fn open<D: Disk>(alloc: Global, disk: D, masters: &Masters) -> Result<Store<D>, BeginRefused<D>>
    ensures opened { let k = plain_masters masters.now in
        IfOk result (IsOpenOf D.tells k (D.tells.reads disk)) }
    ensures fault { let k = plain_masters masters.now in IfErr result (λ refused.
        Told (D.tells.reads disk) (λ i. RefusesStore k i refused.fault)) }
    ensures quiet { LeavesOnly D.tells disk (disk_left result) (D.tells.may_leave disk) }
    ensures call { IsDiskCall D.tells (IsDiskFault result) disk (disk_left result) }
{
    let base_check = base_check_of(&masters.base);
    match Store::open(alloc, disk, masters.surface, base_check) {
        Ok(store) => checked(alloc, store, &masters.base),
        Err(refused) => {
            values_are_known(refused.fault);
            Err(refused)
        }
    }
}
