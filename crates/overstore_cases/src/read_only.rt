//! A disk over borrowed bytes that refuses each write, counts its calls, and can give one byte of
//! Book with other bits. No clause says what is read.
ghost use Rattle.std.specs.Prelude.{◌≡◌, ◌≤◌, None, Option, Some};
ghost use Rattle.ov_base.specs.Causes.{Rose};
ghost use Rattle.ov_disk.specs.Disk.{Image};

use crate::case::NEVER;
use ov_disk::{Area, Disk, DiskFault};

/// A Book and a Blobs that nobody may write. Of the reads of Book's byte at `place`, the one after
/// `earlier` others gives it with these bits changed.
#[derive(Drop)]
pub struct ReadOnly<'a> {
    book: &'a [u8],
    blobs: &'a [u8],
    place: usize,
    pub bits: u8,
    pub earlier: u32,
    pub reads: u32,
    pub fails: u64,
    calls: u64,
    pub book_calls: u64,
    pub blobs_calls: u64,
    pub syncs: u64,
}

impl<'a> ReadOnly<'a> {
    /// A disk that changes no byte and doesn't fail, and counts the reads of this byte of Book.
    pub fn of(book: &'a [u8], blobs: &'a [u8], place: usize) -> ReadOnly<'a> {
        ReadOnly {
            book,
            blobs,
            place,
            bits: 0,
            earlier: 0,
            reads: 0,
            fails: NEVER,
            calls: 0,
            book_calls: 0,
            blobs_calls: 0,
            syncs: 0,
        }
    }
}

impl ReadOnly<'_> {
    fn area(&self, area: Area) -> &[u8] {
        match area {
            Area::Book => self.book,
            Area::Blobs => self.blobs,
        }
    }

    // Counts a call, of an area or a sync, and answers whether it is the one that fails.
    fn call(&mut self, area: Option<Area>) -> Result<(), DiskFault>
        ensures later { self.old.calls ≤ self.new.calls }
        ensures rose { Rose self.old.calls self.new.calls }
    {
        match area {
            Some(Area::Book) => self.book_calls = self.book_calls.saturating_add(1),
            Some(Area::Blobs) => self.blobs_calls = self.blobs_calls.saturating_add(1),
            None => self.syncs = self.syncs.saturating_add(1),
        }
        let call = self.calls;
        self.calls = call.saturating_add(1);
        if call == self.fails {
            return Err(DiskFault);
        }
        Ok(())
    }

    // Copies from this place on, or gives None where the range isn't inside.
    fn copy(&self, area: Area, at: usize, buf: &mut [u8]) -> Option<()> {
        let rest = self.area(area).get(at..)?;
        let bytes = rest.get(..buf.len())?;
        buf.copy_from_slice(bytes);
        Some(())
    }

    // Counts a read of the byte, where it is in what was read of Book, and changes it in one.
    fn flip(&mut self, area: Area, at: usize, buf: &mut [u8])
        ensures { self.new.calls ≡ self.old.calls }
    {
        if area == Area::Blobs || self.place < at {
            return;
        }
        let here = self.place - at;
        if here < buf.len() {
            if self.reads == self.earlier {
                buf[here] ^= self.bits;
            }
            self.reads = self.reads.saturating_add(1);
        }
    }
}

impl Disk for ReadOnly<'_> {
    ghost tells = { record {
      reads = λ _. None;
      may_leave = λ _ (c : Image). None ≡ Some c;
      moment = λ _. 0;
      left_since = λ _ _ (c : Image). None ≡ Some c;
      faults = λ d. d.calls;
      borrow = λ _. 0;
      counts_now = λ d t c le left. left;
      only_now = λ d c left. left;
      reads_one = λ d i is. is;
    } };

    fn len(&mut self, area: Area) -> Result<u64, DiskFault> {
        self.call(Some(area))?;
        Ok(self.area(area).len() as u64)
    }

    fn read(&mut self, area: Area, at: u64, buf: &mut [u8]) -> Result<(), DiskFault> {
        self.call(Some(area))?;
        let at = at as usize;
        match self.copy(area, at, buf) {
            Some(()) => {
                self.flip(area, at, buf);
                Ok(())
            }
            None => Err(DiskFault),
        }
    }

    fn write_at(&mut self, area: Area, _at: u64, _bytes: &[u8]) -> Result<(), DiskFault> {
        let _ = self.call(Some(area));
        Err(DiskFault)
    }

    fn sync(&mut self) -> Result<(), DiskFault> {
        self.call(None)
    }
}
