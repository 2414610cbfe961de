//! What a disk is: what it reads, and what a crash may leave of it.
ghost use Rattle.std.specs.Prelude.{◌≡◌, ◌≤◌, ◌+◌, ℕ, Some, length, take, drop, IfOk, IsErr, OnOk};
ghost use Rattle.std.specs.Option.{option_map};
ghost use Rattle.ov_disk.specs.Calls.{IsDiskCall};
ghost use Rattle.ov_disk.specs.Disk.{Image, bytes_of, written, TornIn, Follows, Narrows, Told, StaysTold, StaysUntold, Only};
ghost use Rattle.ov_disk.specs.Moments.{Elapses};
ghost use Rattle.ov_disk.specs.Tells.{DiskTells};

use crate::{Area, DiskFault};

/// Two areas of bytes that a crash may tear.
///
/// Between two syncs a crash may leave any bytes in each range that was written and past the old
/// end, and any length, from the least since the last sync to the greatest. All other bytes stay.
/// After a successful sync it leaves what a read gives. After a write or a sync that failed, a disk
/// reads one of the images that a crash may leave, and nothing says which: one that told its bytes
/// before still tells them, and one that told nothing still tells nothing.
pub trait Disk {
    /// What the disk reads, what a crash may leave, and how often the disk has failed.
    ghost tells: { DiskTells Self };

    /// The length of an area in bytes.
    fn len(&mut self, area: Area) -> Result<u64, DiskFault>
        ensures len { IfOk result (λ n.
            Told (tells.reads self.old) (λ i. n ≡ length (bytes_of area i))) }
        ensures reads { tells.reads self.new ≡ tells.reads self.old }
        ensures crash { Narrows (tells.may_leave self.old) (tells.may_leave self.new) }
        ensures time { Elapses tells self.old self.new }
        ensures call { IsDiskCall tells (IsErr result) self.old self.new };

    /// Fills the buffer with the bytes from `at` on.
    fn read(&mut self, area: Area, at: u64, buf: &mut [u8]) -> Result<(), DiskFault>
        requires { Told (tells.reads self.old) (λ i.
            at + length buf.old ≤ length (bytes_of area i)) }
        ensures bytes { OnOk result (Told (tells.reads self.old) (λ i.
            buf.new ≡ take (length buf.old) (drop at (bytes_of area i)))) }
        ensures reads { tells.reads self.new ≡ tells.reads self.old }
        ensures crash { Narrows (tells.may_leave self.old) (tells.may_leave self.new) }
        ensures time { Elapses tells self.old self.new }
        ensures call { IsDiskCall tells (IsErr result) self.old self.new };

    /// Writes over what is there and past the end. Until a sync, a crash may leave any bytes in the
    /// range.
    fn write_at(&mut self, area: Area, at: u64, bytes: &[u8]) -> Result<(), DiskFault>
        requires { Told (tells.reads self.old) (λ i. at ≤ length (bytes_of area i)) }
        ensures written { OnOk result
            (tells.reads self.new ≡ option_map (written area at bytes.now) (tells.reads self.old)) }
        ensures untold { StaysUntold (tells.reads self.old) (tells.reads self.new) }
        ensures told { StaysTold (tells.reads self.old) (tells.reads self.new) }
        ensures crash { Follows (TornIn area at (length bytes.now))
            (tells.may_leave self.old) (tells.may_leave self.new) }
        ensures time { Elapses tells self.old self.new }
        ensures call { IsDiskCall tells (IsErr result) self.old self.new };

    /// Makes both areas last: what is read now is all that a crash may leave, until the next write.
    fn sync(&mut self) -> Result<(), DiskFault>
        ensures durable { OnOk result
            (Told (tells.reads self.old) (λ i. Only i (tells.may_leave self.new))) }
        ensures reads { OnOk result (tells.reads self.new ≡ tells.reads self.old) }
        ensures untold { StaysUntold (tells.reads self.old) (tells.reads self.new) }
        ensures told { StaysTold (tells.reads self.old) (tells.reads self.new) }
        ensures crash { Narrows (tells.may_leave self.old) (tells.may_leave self.new) }
        ensures time { Elapses tells self.old self.new }
        ensures call { IsDiskCall tells (IsErr result) self.old self.new };
}

impl<D: Disk> Disk for &mut D {
    ghost tells = { record {
      reads = λ d. D.tells.reads d.now;
      may_leave = λ d. D.tells.may_leave d.now;
      moment = λ d. D.tells.moment d.now;
      left_since = λ d. D.tells.left_since d.now;
      faults = λ d. D.tells.faults d.now;
      borrow = λ d. d.ghost_name;
      counts_now = λ d. D.tells.counts_now d.now;
      only_now = λ d. D.tells.only_now d.now;
      reads_one = λ d. D.tells.reads_one d.now;
    } };

    fn len(&mut self, area: Area) -> Result<u64, DiskFault> {
        Disk::len(&mut **self, area)
    }

    fn read(&mut self, area: Area, at: u64, buf: &mut [u8]) -> Result<(), DiskFault> {
        Disk::read(&mut **self, area, at, buf)
    }

    fn write_at(&mut self, area: Area, at: u64, bytes: &[u8]) -> Result<(), DiskFault> {
        Disk::write_at(&mut **self, area, at, bytes)
    }

    fn sync(&mut self) -> Result<(), DiskFault> {
        Disk::sync(&mut **self)
    }
}
