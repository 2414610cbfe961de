//! The bytes of extents.
ghost use Rattle.std.specs.Prelude.{◌≡◌, ◌≤◌, ◌+◌, IsErr, OnOk, length, take, drop};
ghost use Rattle.std.specs.Option.{option_map};
ghost use Rattle.ov_disk.specs.Calls.{IsDiskCall};
ghost use Rattle.ov_disk.specs.Disk.{Follows, StaysTold, StaysUntold, Told, written};
ghost use Rattle.ov_disk.specs.Moments.{IsUntouched, LeavesOnly};
ghost use Rattle.ov_disk.specs.declared.area.Area.TheVariants.{Blobs};
ghost use Rattle.ov_blocks.specs.Writes.{IsLeftBy, PutsInto, place_in_blobs};
ghost use Rattle.ov_blocks.specs.Extents.{IsInside};

use crate::extents::{BLOCK_BYTES, Extents};
use ov_disk::{Area, Disk, DiskFault};

// The place in Blobs of a byte of the extent with this first block.
fn place_in_blobs(first: u32, start: u32) -> u64
    ensures { result ≡ place_in_blobs first start }
{
    u64::from(BLOCK_BYTES) * u64::from(first) + u64::from(start)
}

impl Extents {
    /// Writes these bytes into the extent with this first block, from `start` on. It makes one call
    /// of the disk.
    pub fn put<D: Disk>(
        &self,
        disk: &mut D,
        first: u32,
        start: u32,
        bytes: &[u8],
    ) -> Result<(), DiskFault>
        requires inside { IsInside first start (length bytes.now) self.now }
        requires begins { Told (D.tells.reads disk.old) (λ i.
            place_in_blobs first start ≤ length i.blobs) }

        ensures written { OnOk result (D.tells.reads disk.new
            ≡ option_map (written Blobs (place_in_blobs first start) bytes.now)
            (D.tells.reads disk.old)) }
        ensures untold { StaysUntold (D.tells.reads disk.old) (D.tells.reads disk.new) }
        ensures told { StaysTold (D.tells.reads disk.old) (D.tells.reads disk.new) }

        // What a crash now may leave, and what a crash at any moment of the call.
        ensures crash { Follows (PutsInto first start (length bytes.now) self.now)
            (D.tells.may_leave disk.old) (D.tells.may_leave disk.new) }
        ensures any_moment { LeavesOnly D.tells disk.old disk.new
            (IsLeftBy (PutsInto first start (length bytes.now) self.now)
            (D.tells.may_leave disk.old)) }

        ensures call { IsDiskCall D.tells (IsErr result) disk.old disk.new }
    {
        self.known();
        disk.write_at(Area::Blobs, place_in_blobs(first, start), bytes)
    }

    /// Fills the buffer with the bytes of the extent with this first block, from `start` on. It
    /// makes one call of the disk.
    pub fn read<D: Disk>(
        &self,
        disk: &mut D,
        first: u32,
        start: u32,
        buf: &mut [u8],
    ) -> Result<(), DiskFault>
        requires inside { IsInside first start (length buf.old) self.now }
        requires there { Told (D.tells.reads disk.old) (λ i.
            place_in_blobs first start + length buf.old ≤ length i.blobs) }
        ensures bytes { OnOk result (Told (D.tells.reads disk.old) (λ i.
            buf.new ≡ take (length buf.old) (drop (place_in_blobs first start) i.blobs))) }
        ensures untouched { IsUntouched D.tells disk.old disk.new }
        ensures call { IsDiskCall D.tells (IsErr result) disk.old disk.new }
    {
        disk.read(Area::Blobs, place_in_blobs(first, start), buf)
    }
}
