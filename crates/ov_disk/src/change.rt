//! What a call changes on a disk in memory, and how a stop may tear it.
use crate::Area;
use ov_base::Octets;

/// A call that was done and changed the disk or synced it. `call` is its number.
#[derive(Drop)]
pub enum Change {
    Write {
        call: u64,
        area: Area,
        at: u64,
        bytes: Octets,
    },
    Sync {
        call: u64,
    },
}

/// What a stop makes of the ranges that were written since the last sync.
#[derive(Clone, Copy, Debug, PartialEq, Eq)]
pub enum Tear {
    /// The ranges are as they were then, and so are the lengths.
    Old,
    /// The ranges are as written.
    New,
    /// The ranges hold this byte over and over.
    Fill(u8),
}
