//! A copy of the updates that are kept.
ghost use Rattle.std.specs.Prelude.{◌≡◌, ◌⊎◌, false, IfOk, IsErrOf, OnOk};
ghost use Rattle.ov_base.specs.Causes.{Rose};
ghost use Rattle.ov_disk.specs.Disk.{StaysTold};
ghost use Rattle.ov_disk.specs.Moments.{IsUntouched};
ghost use Rattle.ov_history.specs.Sealed.{SealedHistory};
ghost use Rattle.ov_record.specs.Briefs.{brief};
ghost use Rattle.ov_record.specs.Updates.{sealed_update};
ghost use Rattle.ov_state.specs.Plans.{IsFitting};
ghost use Rattle.ov_store.specs.Opened.{Serves};
ghost use Rattle.ov_store.specs.Updating.{IsCallOf, LeavesEither};
ghost use Rattle.ov_tidy.specs.Copies.{Adds, BeginsFor, Copies, CopiesNext, FindsAgain, LeavesCopy};
ghost use Rattle.ov_tidy.specs.Copies.{KeepsStep, copy_fault_of};
ghost use Rattle.ov_tidy.specs.declared.copying.CopyFault.TheVariants.{Disk as DiskFailed};

use ov_disk::Disk;
use ov_record::Update;
use ov_state::WIDTH;
use ov_store::{BriefFault, Store, StoreFault};
use std::alloc::Global;

/// Why not all kept updates are copied.
#[derive(Clone, Copy, Debug, PartialEq, Eq)]
pub enum CopyFault {
    /// A call of one of the disks failed.
    Disk,
    /// The update of the record with this gate isn't what it was, or the new store refuses it.
    Changed { offset: u64 },
    /// Memory was refused.
    Memory,
}

// The update of this place, whose gate is this, with the bytes of its file, which has this number
// where it makes one.
fn read_again<D: Disk>(
    alloc: Global,
    old: &mut Store<D>,
    place: u32,
    file: u32,
    gate: u64,
) -> Result<Update<WIDTH>, CopyFault>
    ensures update { FindsAgain D.tells old.old place file result }
    ensures fits { IfOk result (λ whole. IsFitting (brief (sealed_update whole))) }
    ensures stays { old.new ≡ record old.old { disk = old.new.disk } }
    ensures untouched { IsUntouched D.tells old.old.disk old.new.disk }
    ensures served { (g : SealedHistory) → Serves D.tells g old.old → Serves D.tells g old.new }
    ensures call { IsCallOf D.tells old.old old.new (IsErrOf result DiskFailed) }
{
    match old.whole(alloc, u64::from(place), file) {
        Ok(Some(update)) => Ok(update),
        Ok(None) => Err(CopyFault::Changed { offset: gate }),
        Err(BriefFault::Disk) => Err(CopyFault::Disk),
        Err(BriefFault::Changed { offset }) => Err(CopyFault::Changed { offset }),
        Err(BriefFault::Memory) => Err(CopyFault::Memory),
    }
}

// Why an update isn't copied that the new store doesn't make. The record with this gate has it in the
// old one.
fn copy_fault(fault: StoreFault, gate: u64) -> CopyFault
    ensures { result ≡ copy_fault_of gate fault }
{
    match fault {
        StoreFault::Disk => CopyFault::Disk,
        StoreFault::Memory => CopyFault::Memory,
        StoreFault::Refused(_) => CopyFault::Changed { offset: gate },
        StoreFault::BadPlan { .. } => CopyFault::Changed { offset: gate },
        StoreFault::Failed => CopyFault::Changed { offset: gate },
    }
}

// Makes this update in the new store. The record with this gate has it in the old one.
fn add<E: Disk>(
    alloc: Global,
    new: &mut Store<E>,
    update: Update<WIDTH>,
    gate: u64,
) -> Result<(), CopyFault>
    requires fits { IsFitting (brief (sealed_update update)) }
    requires whole { new.old.failed ≡ false }
    ensures answer { Adds E.tells (sealed_update update) new.old new.new result }
    ensures any_moment { LeavesEither E.tells (sealed_update update) new.old new.new }
    ensures step { OnOk result (KeepsStep E.tells new.old new.new) }
    ensures told { StaysTold (E.tells.reads new.old.disk) (E.tells.reads new.new.disk) }
    ensures call { IsCallOf E.tells new.old new.new (IsErrOf result DiskFailed) }
{
    match new.update(alloc, update) {
        Ok(_) => Ok(()),
        Err(fault) => Err(copy_fault(fault, gate)),
    }
}

// Copies the update of this place of the old store to the new one.
fn copy_one<D: Disk, E: Disk>(
    alloc: Global,
    old: &mut Store<D>,
    new: &mut Store<E>,
    place: u32,
) -> Result<(), CopyFault>
    requires whole { new.old.failed ≡ false }
    ensures copied { CopiesNext D.tells E.tells old.old place new.old new.new result }
    ensures whole { OnOk result (new.new.failed ≡ false) }
    ensures step { OnOk result (KeepsStep E.tells new.old new.new) }
    ensures told { StaysTold (E.tells.reads new.old.disk) (E.tells.reads new.new.disk) }
    ensures stays { old.new ≡ record old.old { disk = old.new.disk } }
    ensures untouched { IsUntouched D.tells old.old.disk old.new.disk }
    ensures served { (g : SealedHistory) → Serves D.tells g old.old → Serves D.tells g old.new }
    ensures calls { IsCallOf D.tells old.old old.new ⊥ × IsCallOf E.tells new.old new.new ⊥ }
    ensures causes { IsErrOf result DiskFailed
        → Rose (D.tells.faults old.old.disk) (D.tells.faults old.new.disk)
        ⊎ Rose (E.tells.faults new.old.disk) (E.tells.faults new.new.disk) }
{
    let gate = old.gate(u64::from(place));
    let file = new.state().sizes().files;
    match read_again(alloc, old, place, file, gate) {
        Ok(update) => add(alloc, new, update, gate),
        Err(fault) => Err(fault),
    }
}

/// Copies the updates of these places of the old store, in this order, to the new one, which has none
/// yet. Where a file is gone that an update made, its bytes are gone too: it is made with as many
/// zeros, under its own tag.
///
/// After a fault the new store may have the first of them, and isn't used.
pub fn copy<D: Disk, E: Disk>(
    alloc: Global,
    old: &mut Store<D>,
    new: &mut Store<E>,
    kept: &[u32],
) -> Result<(), CopyFault>
    requires keys { new.old.keys ≡ old.old.keys }
    requires whole { new.old.failed ≡ false }
    requires begins { BeginsFor D.tells E.tells old.old kept.now new.old }
    ensures copied { Copies D.tells E.tells old.old kept.now new.new result }
    ensures any_moment { LeavesCopy D.tells E.tells old.old kept.now new.old new.new }
    // The new store is of the format in which it was begun.
    ensures step { OnOk result (KeepsStep E.tells new.old new.new) }

    // Nothing is written to the old disk, and the old store stands for what it stood for.
    ensures stays { old.new ≡ record old.old { disk = old.new.disk } }
    ensures untouched { IsUntouched D.tells old.old.disk old.new.disk }
    ensures served { (g : SealedHistory) → Serves D.tells g old.old → Serves D.tells g old.new }

    // A new disk that told its bytes still tells them.
    ensures told { StaysTold (E.tells.reads new.old.disk) (E.tells.reads new.new.disk) }
    ensures calls { IsCallOf D.tells old.old old.new ⊥ × IsCallOf E.tells new.old new.new ⊥ }
    ensures causes { IsErrOf result DiskFailed
        → Rose (D.tells.faults old.old.disk) (D.tells.faults old.new.disk)
        ⊎ Rose (E.tells.faults new.old.disk) (E.tells.faults new.new.disk) }
{
    'places: for i in 0..kept.len() {
        match copy_one(alloc, old, new, kept[i]) {
            Ok(()) => {}
            Err(fault) => return Err(fault),
        }
    }
    Ok(())
}
