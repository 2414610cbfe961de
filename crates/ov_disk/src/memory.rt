//! A disk in memory, which keeps its calls: so it can fail, and be torn, at any of them.
ghost use Rattle.std.specs.Prelude.{◌≡◌, ◌≤◌, ◌+◌, ◌↔◌, ◌++◌, ◌∷◌, [], Some, IsErr, IfOk, OnOk, OnErr, MatchResult, length, take, drop, option_map};
ghost use Rattle.ov_base.specs.Causes.{HasCause, Rose};
ghost use Rattle.ov_disk.specs.Disk.{Image, image, bytes_of, written, TornIn, Follows, Narrows, Told, StaysTold, StaysUntold, Only};
ghost use Rattle.ov_disk.specs.declared.change.Change.TheVariants.{Write, Sync};
ghost use Rattle.ov_disk.specs.Moments.{Elapses};
ghost use Rattle.ov_disk.specs.Tape.{fresh, FailsNext, failing, answered, failed, changed, PutsFront, CutsShort, risen, before, torn, reads_of, may_leave_of, left_since_of, Leaves};
ghost use Rattle.ov_disk.specs.TapeLaws.{tape_tells};

use crate::areas::Areas;
use crate::change::Change;
use crate::failure::{Failure, front, keep_at};
use crate::stop::torn_areas;
use crate::{Area, Disk, DiskFault, Tear};
use ov_base::{Memory, Octets};
use std::alloc::Global;
use std::marker::Model;

/// Two areas in memory. A contract sees the contents at first, the changes since and the calls that
/// fail; what is read is the changes replayed.
#[derive(Drop)]
pub struct MemDisk {
    alloc: Global,
    areas: Areas,
    changes: Vec<Change>,
    calls: u64,
    fails: Vec<Failure>,
    faults: u64,
}

impl Model for MemDisk {
    ghost use Rattle.std.specs.Prelude.{◌≡◌, Some};
    ghost use Rattle.ov_disk.specs.Tape.{Tape, replayed};

    ghost Value = { Tape };

    ghost view = { λ m. record {
      first = m.areas.start;
      changes = m.changes.items;
      calls = m.calls;
      fails = m.fails.items;
      faults = m.faults;
    } };

    ghost invariant = { λ m. replayed m.areas.start m.changes.items ≡ Some m.areas.current };
}

fn give(from: &[u8], at: u64, buf: &mut [u8])
    requires { at + length buf.old ≤ length from.now }
    ensures { buf.new ≡ take (length buf.old) (drop at from.now) }
{
    let at = at as usize;
    buf.copy_from_slice(&from[at..at + buf.len()]);
}

impl MemDisk {
    /// A disk in memory with both areas empty, and nothing pending.
    pub fn new(alloc: Global) -> MemDisk
        ensures { result ≡ fresh (image [] []) }
    {
        let book = Octets::from_vec(Vec::new(alloc));
        let blobs = Octets::from_vec(Vec::new(alloc));
        MemDisk::of(alloc, book, blobs)
    }

    /// A disk in memory with these contents, synced.
    pub fn of(alloc: Global, book: Octets, blobs: Octets) -> MemDisk
        ensures { result ≡ fresh (image book blobs) }
    {
        MemDisk {
            alloc,
            areas: Areas::new(book, blobs),
            changes: Vec::new(alloc),
            calls: 0,
            fails: Vec::new(alloc),
            faults: 0,
        }
    }

    /// Of the calls, counted from 0, the one of this number will fail and leave the disk as it is.
    pub fn fail_at(&mut self, call: u64) -> Result<(), Memory>
        ensures ok { OnOk result (self.new ≡ failing call 0 self.old) }
        ensures err { OnErr result (self.new ≡ self.old) }
    {
        self.fail_part(call, 0)
    }

    /// Of the calls, counted from 0, the one of this number will fail. Where it is a write, it has
    /// then put its first `keep` bytes, or all where it has fewer, or none where memory is refused;
    /// any other call changes nothing. Where one call is named more than once, the first counts.
    pub fn fail_part(&mut self, call: u64, keep: u64) -> Result<(), Memory>
        ensures ok { OnOk result (self.new ≡ failing call keep self.old) }
        ensures err { OnErr result (self.new ≡ self.old) }
    {
        self.fails.push(Failure { call, keep })?;
        Ok(())
    }

    /// How many calls there were. The number stays at 18,446,744,073,709,551,615.
    pub fn calls(&self) -> u64
        ensures { result ≡ self.now.calls }
    {
        self.calls
    }

    /// What a read gives in Book.
    pub fn book(&self) -> &[u8]
        ensures { option_map (λ i. i.book) (reads_of self.now) ≡ Some result.now }
    {
        self.areas.get(Area::Book)
    }

    /// What a read gives in Blobs.
    pub fn blobs(&self) -> &[u8]
        ensures { option_map (λ i. i.blobs) (reads_of self.now) ≡ Some result.now }
    {
        self.areas.get(Area::Blobs)
    }

    /// The disk as a stop after this many calls may leave it, with nothing pending.
    pub fn image(&self, call: u64, tear: Tear) -> Result<MemDisk, Memory>
        requires { call ≤ self.now.calls }
        ensures exact { IfOk result (λ disk.
            disk ≡ fresh (torn tear self.now.first (before call self.now.changes))) }
        // A crash after this many calls may leave it, and so may one at some moment up to now.
        ensures after { IfOk result (λ disk.
            Leaves self.now.first (before call self.now.changes) disk.first) }
        ensures possible { IfOk result (λ disk. left_since_of self.now 0 disk.first) }
    {
        let left = torn_areas(self.alloc, &self.areas, &self.changes, call, tear)?;
        let book = Octets::copy(self.alloc, left.get(Area::Book))?;
        let blobs = Octets::copy(self.alloc, left.get(Area::Blobs))?;
        Ok(MemDisk::of(self.alloc, book, blobs))
    }

    // Counts a call, and answers its number.
    fn count_call(&mut self) -> u64
        ensures call { result ≡ self.old.calls }
        ensures exact { self.new ≡ answered self.old }
    {
        let call = self.calls;
        self.calls = call.saturating_add(1);
        call
    }

    // A call that was counted fails.
    fn fault(&mut self) -> DiskFault
        ensures count { self.new ≡ record self.old { faults = risen self.old.faults } }
        ensures later { self.old.faults ≤ self.new.faults }
        ensures rose { Rose self.old.faults self.new.faults }
    {
        self.faults = self.faults.saturating_add(1);
        DiskFault
    }

    // Counts a call, which fails where it was made to.
    fn next_call(&mut self) -> Result<u64, DiskFault>
        ensures fails { IsErr result ↔ FailsNext self.old }
        ensures call { IfOk result (λ call. call ≡ self.old.calls) }
        ensures exact { MatchResult result
            (λ _. self.new ≡ answered self.old)
            (λ _. self.new ≡ failed self.old) }
        ensures cause { HasCause self.old.faults self.new.faults result }
    {
        let call = self.count_call();
        if keep_at(&self.fails, call).is_some() {
            return Err(self.fault());
        }
        Ok(call)
    }

    fn keep_write(&mut self, call: u64, area: Area, at: u64, bytes: &[u8]) -> Result<(), Memory>
        requires { Told (reads_of self.old) (λ i. at ≤ length (bytes_of area i)) }
        ensures ok { OnOk result (self.new ≡ record self.old {
          changes = self.old.changes ++ Write call area at bytes.now ∷ [];
        }) }
        ensures err { OnErr result (self.new ≡ self.old) }
    {
        let kept = Octets::copy(self.alloc, bytes)?;
        self.changes.reserve(1)?;
        self.areas.write(self.alloc, area, at, bytes)?;
        self.changes.push(Change::Write {
            call,
            area,
            at,
            bytes: kept,
        })?;
        Ok(())
    }

    // Writes, and fails only where memory is refused.
    fn write_whole(&mut self, area: Area, at: u64, bytes: &[u8]) -> Result<(), DiskFault>
        requires { Told (reads_of self.old) (λ i. at ≤ length (bytes_of area i)) }
        ensures { MatchResult result
            (λ _. self.new ≡ changed (Write self.old.calls area at bytes.now) self.old)
            (λ _. self.new ≡ failed self.old) }
    {
        let call = self.count_call();
        if self.keep_write(call, area, at, bytes).is_err() {
            return Err(self.fault());
        }
        Ok(())
    }

    // Writes these bytes, of which there may be none, and fails.
    fn write_front(&mut self, area: Area, at: u64, bytes: &[u8]) -> DiskFault
        requires { Told (reads_of self.old) (λ i. at ≤ length (bytes_of area i)) }
        ensures { PutsFront area at bytes.now self.old self.new }
    {
        let call = self.count_call();
        if !bytes.is_empty() {
            // Memory that is refused changes nothing, and the call fails all the same.
            let _ = self.keep_write(call, area, at, bytes);
        }
        self.fault()
    }

    fn keep_sync(&mut self, call: u64) -> Result<(), Memory>
        ensures ok { OnOk result (self.new ≡ record self.old {
          changes = self.old.changes ++ Sync call ∷ [];
        }) }
        ensures err { OnErr result (self.new ≡ self.old) }
        ensures told { (i : Image) × (reads_of self.old ≡ Some i) }
    {
        self.changes.push(Change::Sync { call })?;
        Ok(())
    }
}

impl Disk for MemDisk {
    ghost tells = { tape_tells };

    // What else the trait asks follows from the exact clauses.
    fn len(&mut self, area: Area) -> Result<u64, DiskFault>
        ensures len { IfOk result (λ n.
            Told (reads_of self.old) (λ i. n ≡ length (bytes_of area i))) }
        ensures cause { HasCause self.old.faults self.new.faults result }
        ensures fails { IsErr result ↔ FailsNext self.old }
        ensures exact { MatchResult result
            (λ _. self.new ≡ answered self.old)
            (λ _. self.new ≡ failed self.old) }
    {
        self.next_call()?;
        Ok(self.areas.get(area).len() as u64)
    }

    fn read(&mut self, area: Area, at: u64, buf: &mut [u8]) -> Result<(), DiskFault>
        requires { Told (reads_of self.old) (λ i. at + length buf.old ≤ length (bytes_of area i)) }
        ensures bytes { OnOk result (Told (reads_of self.old) (λ i.
            buf.new ≡ take (length buf.old) (drop at (bytes_of area i)))) }
        ensures cause { HasCause self.old.faults self.new.faults result }
        ensures fails { IsErr result ↔ FailsNext self.old }
        ensures exact { MatchResult result
            (λ _. self.new ≡ answered self.old)
            (λ _. self.new ≡ failed self.old) }
    {
        self.next_call()?;
        give(self.areas.get(area), at, buf);
        Ok(())
    }

    fn write_at(&mut self, area: Area, at: u64, bytes: &[u8]) -> Result<(), DiskFault>
        requires { Told (reads_of self.old) (λ i. at ≤ length (bytes_of area i)) }
        ensures written { OnOk result
            (reads_of self.new ≡ option_map (written area at bytes.now) (reads_of self.old)) }
        ensures untold { StaysUntold (reads_of self.old) (reads_of self.new) }
        ensures told { StaysTold (reads_of self.old) (reads_of self.new) }
        ensures crash { Follows (TornIn area at (length bytes.now))
            (may_leave_of self.old) (may_leave_of self.new) }
        ensures time { Elapses tape_tells self.old self.new }
        ensures cause { HasCause self.old.faults self.new.faults result }
        ensures fails { FailsNext self.old → IsErr result }
        ensures exact { MatchResult result
            (λ _. self.new ≡ changed (Write self.old.calls area at bytes.now) self.old)
            (λ _. CutsShort area at bytes.now self.old self.new) }
    {
        match keep_at(&self.fails, self.calls) {
            Some(keep) => Err(self.write_front(area, at, front(bytes, keep))),
            None => self.write_whole(area, at, bytes),
        }
    }

    fn sync(&mut self) -> Result<(), DiskFault>
        ensures durable { OnOk result
            (Told (reads_of self.old) (λ i. Only i (may_leave_of self.new))) }
        ensures reads { OnOk result (reads_of self.new ≡ reads_of self.old) }
        ensures crash { Narrows (may_leave_of self.old) (may_leave_of self.new) }
        ensures cause { HasCause self.old.faults self.new.faults result }
        ensures fails { FailsNext self.old → IsErr result }
        ensures exact { MatchResult result
            (λ _. self.new ≡ changed (Sync self.old.calls) self.old)
            (λ _. self.new ≡ failed self.old) }
    {
        let call = self.next_call()?;
        if self.keep_sync(call).is_err() {
            return Err(self.fault());
        }
        Ok(())
    }
}
