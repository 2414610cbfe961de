//! How far the making of a shorter store is, on standard error. What can't be written there is passed
//! over.
ghost use Rattle.std.specs.Prelude.{◌≡◌};

use ov_disk::{Area, Disk, DiskFault};
use std::time::Instant;

// How often the Book of the old store is read from its front to its end: where its records begin, each
// record for the store, for its tokens and its tag, for what is kept, and each that is kept for the
// copy.
const PASSES: u64 = 5;

// Nothing is shown before so many seconds.
const FIRST: u64 = 2;

/// A disk that shows once a second how far its Book is read, where that takes more than two seconds, or
/// shows nothing.
#[derive(Drop)]
pub struct Passes<D: Disk> {
    disk: D,
    rt: HostRuntime,
    begun: Option<Instant>,
    shown: u64,
    size: u64,
    pass: u64,
    place: u64,
}

impl<D: Disk> Passes<D> {
    /// A disk that is read from now on, and shows so or doesn't.
    pub fn new(disk: D, rt: HostRuntime, shows: bool) -> Passes<D> {
        Passes {
            disk,
            rt,
            begun: if shows { Instant::now(&rt).ok() } else { None },
            shown: FIRST.saturating_sub(1),
            size: 0,
            pass: 1,
            place: 0,
        }
    }

    // Notes how long Book is.
    fn note_size(&mut self, size: u64)
        ensures { self.new.disk ≡ self.old.disk }
    {
        self.size = size;
    }

    // Notes that Book is read from this place on, and shows it where a second has gone by.
    fn note_read(&mut self, place: u64)
        ensures { self.new.disk ≡ self.old.disk }
    {
        if place < self.place {
            self.pass = self.pass.saturating_add(1);
        }
        self.place = place;
        let rt = self.rt;
        let Some(begun) = self.begun else {
            return;
        };
        let Ok(time) = begun.elapsed(&rt) else {
            return;
        };
        if time.as_secs() > self.shown {
            self.shown = time.as_secs();
            self.show();
        }
    }

    // Shows it in place of what was shown before.
    fn show(&self) {
        let rt = self.rt;
        let pass = self.pass.min(PASSES);
        let percent = self.place.saturating_mul(100) / self.size.max(1);
        let _ = eprint!(rt; "\roverstore: pass {pass} of {PASSES} over the store, {percent} %  ");
    }
}

impl<D: Disk> Disk for Passes<D> {
    ghost tells = { record {
      reads = λ d. D.tells.reads d.disk;
      may_leave = λ d. D.tells.may_leave d.disk;
      moment = λ d. D.tells.moment d.disk;
      left_since = λ d. D.tells.left_since d.disk;
      faults = λ d. D.tells.faults d.disk;
      borrow = λ d. D.tells.borrow d.disk;
      counts_now = λ d. D.tells.counts_now d.disk;
      only_now = λ d. D.tells.only_now d.disk;
      reads_one = λ d. D.tells.reads_one d.disk;
    } };

    fn len(&mut self, area: Area) -> Result<u64, DiskFault> {
        let size = self.disk.len(area)?;
        if area == Area::Book {
            self.note_size(size);
        }
        Ok(size)
    }

    fn read(&mut self, area: Area, at: u64, buf: &mut [u8]) -> Result<(), DiskFault> {
        let read = self.disk.read(area, at, buf);
        if area == Area::Book {
            self.note_read(at);
        }
        read
    }

    fn write_at(&mut self, area: Area, at: u64, bytes: &[u8]) -> Result<(), DiskFault> {
        self.disk.write_at(area, at, bytes)
    }

    fn sync(&mut self) -> Result<(), DiskFault> {
        self.disk.sync()
    }
}
