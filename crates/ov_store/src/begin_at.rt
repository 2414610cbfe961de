//! Beginning a store where there is none, at whatever epoch.
ghost use Rattle.std.specs.Prelude.{◌≡◌, IfErr, IfOk, IsErrOf};
ghost use Rattle.ov_disk.specs.Calls.{IsDiskCall};
ghost use Rattle.ov_disk.specs.Disk.{Told};
ghost use Rattle.ov_disk.specs.Moments.{IsUntouched};
ghost use Rattle.ov_images.specs.Images.{keys};
ghost use Rattle.ov_journal.specs.Standing.{IsUnborn};
ghost use Rattle.ov_store.specs.Beginning.{IsBeginAtFault, IsBegunAt, IsBornStore, IsDiskFault};
ghost use Rattle.ov_store.specs.Beginning.{LeavesBlank, WritesNoBorn, disk_left};
ghost use Rattle.ov_store.specs.Faults.{begin_at_fault_of};
ghost use Rattle.ov_store.specs.Opened.{open_with};
ghost use Rattle.ov_store.specs.declared.fault.BeginFault.TheVariants.{Disk as DiskFailed, Memory as NoMemory};

use crate::begin::BeginRefused;
use crate::birth::birth;
use crate::fault::BeginFault;
use crate::store::Store;
use ov_base::{Key, Mode};
use ov_disk::Disk;
use ov_journal::{Found, Journal, JournalFault};
use ov_placed::CataloguePlaces;
use ov_tokens::Master;
use std::alloc::Global;

// Why a store isn't begun where there may be none. The caller wants an empty disk: a store, another file
// and a damaged header are all answered as NotAStore, and none of them is looked at any further.
fn fault_at(why: JournalFault) -> BeginFault
    ensures { result ≡ begin_at_fault_of why }
{
    match why {
        JournalFault::Disk => BeginFault::Disk,
        JournalFault::NotAStore => BeginFault::NotAStore,
        JournalFault::Damaged { .. } => BeginFault::NotAStore,
        JournalFault::Memory => BeginFault::Memory,
    }
}

// A store without records on this disk, where there is none.
fn open_at<D: Disk>(
    alloc: Global,
    disk: &mut D,
    base_check: &[u8; 32],
    surface: &Master,
    mode: Mode,
    first: u32,
) -> Result<(CataloguePlaces, Journal), BeginFault>
    ensures born { IfOk result (λ parts. IsBornStore D.tells parts.1 parts.0 mode first
        (D.tells.reads disk.old)
        (open_with D.tells disk.new (keys base_check.now surface.now.bytes) parts.0)) }
    ensures unborn { IfOk result (λ _. Told (D.tells.reads disk.old) (λ i. IsUnborn i.book)) }
    ensures fault { Told (D.tells.reads disk.old) (λ i. IfErr result (IsBeginAtFault i)) }
    ensures any_moment { LeavesBlank D.tells
        (keys base_check.now surface.now.bytes) mode first disk.old disk.new }
    ensures untouched { WritesNoBorn D.tells disk.old disk.new }
    ensures memory { IsErrOf result NoMemory → IsUntouched D.tells disk.old disk.new }
    ensures call { IsDiskCall D.tells (IsErrOf result DiskFailed) disk.old disk.new }
{
    match Journal::begin(alloc, disk) {
        Ok(Found::Unborn) => birth(alloc, disk, base_check, surface, mode, first),
        Ok(Found::Born { .. }) => Err(BeginFault::NotAStore),
        Err(why) => Err(fault_at(why)),
    }
}

impl<D: Disk> Store<D> {
    /// Begins an empty store from this epoch on, where the disk is unborn. Anything else on the disk
    /// is refused with [`BeginFault::NotAStore`], also a store that [`Store::begin`] would open, and
    /// nothing is written. A refusal hands the disk back.
    pub fn begin_at(
        alloc: Global,
        disk: D,
        surface: Key,
        base_check: [u8; 32],
        mode: Mode,
        first: u32,
    ) -> Result<Store<D>, BeginRefused<D>>
        ensures begun { IfOk result (IsBegunAt D.tells
            (keys base_check surface.bytes) mode first (D.tells.reads disk)) }
        ensures fault { IfErr result (λ refused. Told (D.tells.reads disk) (λ i.
            IsBeginAtFault i refused.fault)) }

        // What a crash at any moment of the call leaves, whatever is answered.
        ensures any_moment { LeavesBlank D.tells
            (keys base_check surface.bytes) mode first disk (disk_left result) }
        ensures untouched { WritesNoBorn D.tells disk (disk_left result) }
        // A refusal of memory leaves the disk as it was.
        ensures memory { IfErr result (λ refused. refused.fault ≡ NoMemory
            → IsUntouched D.tells disk refused.disk) }

        ensures call { IsDiskCall D.tells (IsDiskFault result) disk (disk_left result) }
    {
        let mut disk = disk;
        let surface = Master::new(&surface);
        match open_at(alloc, &mut disk, &base_check, &surface, mode, first) {
            Ok((placed, journal)) => Ok(Store {
                disk,
                surface,
                base_check,
                placed,
                journal,
                failed: false,
            }),
            Err(fault) => Err(BeginRefused { fault, disk }),
        }
    }
}
