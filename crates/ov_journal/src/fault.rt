//! Why a journal could not be opened or read.
ghost use Rattle.std.specs.Prelude.{◌≡◌};

use ov_base::Memory;
use ov_disk::DiskFault;
use std::alloc::{AllocError, AllocFailed};

/// Why a journal could not be opened.
#[derive(Clone, Copy, Debug, PartialEq, Eq)]
pub enum JournalFault {
    /// A call of the disk failed.
    Disk,
    /// There is another file, or a store of an unknown format.
    NotAStore,
    /// The header can't be: the place of the first byte that is wrong.
    Damaged { offset: u64 },
    /// Memory was refused.
    Memory,
}

/// Why a store could not be begun, or a record not read.
#[derive(Clone, Copy, Debug, PartialEq, Eq)]
pub enum CheckFault {
    /// A call of the disk failed.
    Disk,
    /// Memory was refused.
    Memory,
}

impl From<DiskFault> for JournalFault {
    ghost use Rattle.ov_journal.specs.declared.fault.JournalFault.TheVariants.{Disk};

    ghost from_gives = { λ _ fault. fault ≡ Disk };

    fn from(_: DiskFault) -> Self {
        JournalFault::Disk
    }
}

impl<T: Drop> From<AllocFailed<T>> for JournalFault {
    ghost use Rattle.ov_journal.specs.declared.fault.JournalFault.TheVariants.{Memory};

    ghost from_gives = { λ _ fault. fault ≡ Memory };

    fn from(_: AllocFailed<T>) -> Self {
        JournalFault::Memory
    }
}

impl From<DiskFault> for CheckFault {
    ghost use Rattle.ov_journal.specs.declared.fault.CheckFault.TheVariants.{Disk};

    ghost from_gives = { λ _ fault. fault ≡ Disk };

    fn from(_: DiskFault) -> Self {
        CheckFault::Disk
    }
}

impl From<Memory> for CheckFault {
    ghost use Rattle.ov_journal.specs.declared.fault.CheckFault.TheVariants.{Memory};

    ghost from_gives = { λ _ fault. fault ≡ Memory };

    fn from(_: Memory) -> Self {
        CheckFault::Memory
    }
}

impl From<AllocError> for CheckFault {
    ghost use Rattle.ov_journal.specs.declared.fault.CheckFault.TheVariants.{Memory};

    ghost from_gives = { λ _ fault. fault ≡ Memory };

    fn from(_: AllocError) -> Self {
        CheckFault::Memory
    }
}
