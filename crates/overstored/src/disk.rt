//! A disk that says on standard error when a write failed.
ghost use Rattle.std.specs.Prelude.{◌≡◌};

use crate::texts::FAILED_WRITE;
use ov_disk::{Area, Disk, DiskFault};
use std::alloc::Global;
use std::sync::Arc;
use std::sync::atomic::{AtomicBool, Ordering};

/// The disk in it, which says so once where a write or a sync of it fails while the server listens:
/// the store over it then refuses every update. Of a disk that fails before, the end of the server
/// says more. Whichever session's thread has the disk when it fails says it, by one print.
#[derive(Drop)]
pub struct SpokenDisk<D, R> {
    disk: D,
    book: String,
    rt: R,
    listens: Arc<AtomicBool, Global>,
    said: bool,
}

impl<D, R: Eprint> SpokenDisk<D, R> {
    /// This disk of the store with this book, with a runtime that prints; and whether the server
    /// listens, as its door notes it.
    pub fn new(disk: D, book: String, rt: R, listens: Arc<AtomicBool, Global>) -> SpokenDisk<D, R> {
        SpokenDisk {
            disk,
            book,
            rt,
            listens,
            said: false,
        }
    }

    // Says of the first write or sync that fails while the server listens that it did.
    fn note(&mut self, failed: bool)
        ensures { self.new.disk ≡ self.old.disk }
    {
        if failed && self.listens.load(Ordering::SeqCst) && !self.said {
            self.said = true;
            let book = self.book.as_str();
            let (error, hint) = FAILED_WRITE;
            let _ = eprintln!(self.rt;
                "overstored: error: {book}: {error}\noverstored: hint: {hint}"
            );
        }
    }
}

impl<D: Disk, R: Eprint> Disk for SpokenDisk<D, R> {
    ghost tells = { record {
      reads = λ d. D.tells.reads d.disk;
      may_leave = λ d. D.tells.may_leave d.disk;
      moment = λ d. D.tells.moment d.disk;
      left_since = λ d. D.tells.left_since d.disk;
      faults = λ d. D.tells.faults d.disk;
      borrow = λ d. D.tells.borrow d.disk;
      counts_now = λ d. D.tells.counts_now d.disk;
      only_now = λ d. D.tells.only_now d.disk;
      reads_one = λ d. D.tells.reads_one d.disk;
    } };

    fn len(&mut self, area: Area) -> Result<u64, DiskFault> {
        self.disk.len(area)
    }

    fn read(&mut self, area: Area, at: u64, buf: &mut [u8]) -> Result<(), DiskFault> {
        self.disk.read(area, at, buf)
    }

    fn write_at(&mut self, area: Area, at: u64, bytes: &[u8]) -> Result<(), DiskFault> {
        let written = self.disk.write_at(area, at, bytes);
        self.note(written.is_err());
        written
    }

    fn sync(&mut self) -> Result<(), DiskFault> {
        let synced = self.disk.sync();
        self.note(synced.is_err());
        synced
    }
}
