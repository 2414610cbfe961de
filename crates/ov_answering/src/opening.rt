//! Beginning the store of a run, whose updates are all its owner's.
ghost use Rattle.std.specs.Prelude.{◌≡◌, false, IfOk, IfErr};
ghost use Rattle.ov_disk.specs.Calls.{IsDiskCall};
ghost use Rattle.ov_disk.specs.Disk.{StaysTold, Told};
ghost use Rattle.ov_disk.specs.Moments.{IsUntouched};
ghost use Rattle.ov_history.specs.Sealed.{SealedHistory};
ghost use Rattle.ov_images.specs.Images.{keys_of};
ghost use Rattle.ov_store.specs.Beginning.{IsDiskFault, IsNew, LeavesHistory, WritesNoBorn};
ghost use Rattle.ov_store.specs.Beginning.{disk_left};
ghost use Rattle.ov_store.specs.Opened.{Serves};
ghost use Rattle.ov_store.specs.Owners.{masters as both};
ghost use Rattle.ov_tokens.specs.Keys.{check_value_of};
ghost use Rattle.ov_machine.specs.Machine.{plain_masters};
ghost use Rattle.ov_answering.specs.Judging.{FindsPlain, IsChecked, Refuses, fault_for};

use ov_base::{Key, Mode};
use ov_disk::{Area, Disk};
use ov_journal::CheckFault;
use ov_keyfile::Masters;
use ov_report::values_are_known;
use ov_store::{BeginFault, BeginRefused, Store};
use ov_tokens::{Master, check_value};
use std::alloc::Global;

// Why the store isn't begun, if this was found of its updates.
fn fault_found(found: Result<Option<u64>, CheckFault>) -> Option<BeginFault>
    ensures { result ≡ fault_for found }
{
    match found {
        Ok(None) => None,
        Ok(Some(offset)) => Some(BeginFault::Damaged {
            area: Area::Book,
            offset,
        }),
        Err(CheckFault::Disk) => Some(BeginFault::Disk),
        Err(CheckFault::Memory) => Some(BeginFault::Memory),
    }
}

/// Hands the store on where all its updates are as the owner with this base master seals them, and
/// its disk with the reason where they aren't.
pub fn checked<D: Disk>(
    alloc: Global,
    store: Store<D>,
    base: &Key,
) -> Result<Store<D>, BeginRefused<D>>
    requires { store.failed ≡ false }
    ensures same { IfOk result (λ s. s ≡ record store { disk = s.disk }) }
    ensures owners { (g : SealedHistory) → Serves D.tells g store
        → Told (D.tells.reads store.disk) (λ i. IsChecked D.tells
        (both base.now.bytes store.keys.surface) i g result) }
    ensures untouched { IsUntouched D.tells store.disk (disk_left result) }
    ensures call { IsDiskCall D.tells (IsDiskFault result) store.disk (disk_left result) }
{
    let mut store = store;
    match fault_found(store.check(alloc, base)) {
        None => Ok(store),
        Some(fault) => Err(BeginRefused {
            fault,
            disk: store.close(),
        }),
    }
}

/// The value by which a store knows this base master again.
pub fn base_check_of(base: &Key) -> [u8; 32]
    ensures { result ≡ check_value_of base.now.bytes }
{
    check_value(&Master::new(base))
}

/// Begins the store on this disk under the two masters, where the disk is unborn or all its records
/// are those of their owner. The disk is handed back with a refusal.
pub fn begin<D: Disk>(
    alloc: Global,
    disk: D,
    masters: Masters,
    mode: Mode,
) -> Result<Store<D>, BeginRefused<D>>
    ensures new { IfOk result (IsNew (keys_of (plain_masters masters)) mode) }
    // The image opens, and the store stands for its history, which lasts.
    ensures found { IfOk result (λ s. Told (D.tells.reads disk) (λ i.
        FindsPlain D.tells (plain_masters masters) mode i s)
        × StaysTold (D.tells.reads disk) (D.tells.reads s.disk)) }
    ensures fault { IfErr result (λ refused. Told (D.tells.reads disk) (λ i.
        Refuses (plain_masters masters) mode i refused.fault)) }

    // What a crash at any moment of the call leaves, whatever is answered.
    ensures any_moment { LeavesHistory D.tells
        (keys_of (plain_masters masters)) mode disk (disk_left result) }
    ensures untouched { WritesNoBorn D.tells disk (disk_left result) }

    ensures call { IsDiskCall D.tells (IsDiskFault result) disk (disk_left result) }
{
    let base_check = base_check_of(&masters.base);
    match Store::begin(alloc, disk, masters.surface, base_check, mode) {
        Ok(store) => checked(alloc, store, &masters.base),
        Err(refused) => {
            values_are_known(refused.fault);
            Err(refused)
        }
    }
}
