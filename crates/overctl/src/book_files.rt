//! The two files of a book, opened to be read alone. What a file really keeps is trusted.
ghost use Rattle.std.specs.Prelude.{◌≡◌, None, ⊤, IsErr};
ghost use Rattle.ov_base.specs.Causes.{Counts, HasCause};
ghost use Rattle.ov_disk.specs.Untold.{none_holds};

use os::RangeLock;
use ov_disk::{Area, Disk, DiskFault};
use std::fs::{self, File};
use std::io::{self, ErrorKind};
use std::os::fd::AsRawFd;
use std::os::unix::fs::FileExt;

/// The files of both areas, where they are there.
#[derive(Drop)]
struct Pair {
    book: Option<File>,
    blobs: Option<File>,
}

/// A book at two paths, whose files are opened at the first call, to be read alone. None is made: one
/// that isn't there counts as one without bytes, so that there is no book where no file is. It tells
/// nothing of its bytes.
///
/// While they are open both files have a lock that further readers have too, and that a command by the
/// book hasn't: so nothing is read while one writes. Each write is a fault. A sync does nothing, since
/// nothing was written.
#[derive(Drop)]
pub struct BookFiles<'a> {
    rt: HostRuntime,
    book: &'a str,
    blobs: &'a str,
    pair: Option<Pair>,
    faults: u64,
}

// Opens a regular file to be read, and locks it, where it is there.
fn open_to_read(rt: &HostRuntime, path: &str) -> io::Result<Option<File>> {
    match fs::metadata(rt, path) {
        Ok(about) if about.is_file() => {}
        Ok(_) => return Err(ErrorKind::Unsupported.into()),
        Err(error) if error.kind() == ErrorKind::NotFound => return Ok(None),
        Err(error) => return Err(error),
    }
    let file = File::open(rt, path)?;
    if os::try_lock_range(file.as_raw_fd(), RangeLock::Shared, 0, 1 << 62) != 0 {
        return Err(ErrorKind::WouldBlock.into());
    }
    Ok(Some(file))
}

impl Pair {
    fn file(&self, area: Area) -> &Option<File> {
        match area {
            Area::Book => &self.book,
            Area::Blobs => &self.blobs,
        }
    }

    fn len(&self, area: Area) -> io::Result<u64> {
        match self.file(area) {
            Some(file) => Ok(file.metadata()?.len()),
            None => Ok(0),
        }
    }

    fn read(&self, area: Area, at: u64, buf: &mut [u8]) -> io::Result<()> {
        match self.file(area) {
            Some(file) => file.read_exact_at(buf, at),
            None if buf.is_empty() => Ok(()),
            None => Err(ErrorKind::UnexpectedEof.into()),
        }
    }
}

impl<'a> BookFiles<'a> {
    /// A book at these two paths, which has not failed yet.
    pub fn new(rt: HostRuntime, book: &'a str, blobs: &'a str) -> BookFiles<'a> {
        BookFiles {
            rt,
            book,
            blobs,
            pair: None,
            faults: 0,
        }
    }

    // Opens the two files where they aren't open yet. After a failure the next call tries again.
    fn open(&mut self) -> io::Result<()>
        ensures { self.new.faults ≡ self.old.faults }
    {
        if self.pair.is_none() {
            self.pair = Some(Pair {
                book: open_to_read(&self.rt, self.book)?,
                blobs: open_to_read(&self.rt, self.blobs)?,
            });
        }
        Ok(())
    }

    fn try_len(&mut self, area: Area) -> io::Result<u64>
        ensures { self.new.faults ≡ self.old.faults }
    {
        self.open()?;
        match &self.pair {
            Some(pair) => pair.len(area),
            None => Err(ErrorKind::Other.into()),
        }
    }

    fn try_read(&mut self, area: Area, at: u64, buf: &mut [u8]) -> io::Result<()>
        ensures { self.new.faults ≡ self.old.faults }
    {
        self.open()?;
        match &self.pair {
            Some(pair) => pair.read(area, at, buf),
            None => Err(ErrorKind::Other.into()),
        }
    }

    // Counts a fault.
    fn counted<T: Drop>(&mut self, answer: io::Result<T>) -> Result<T, DiskFault>
        ensures cause { HasCause self.old.faults self.new.faults result }
        ensures counted { Counts self.old.faults self.new.faults result }
    {
        match answer {
            Ok(value) => Ok(value),
            Err(_) => {
                self.faults = self.faults.saturating_add(1);
                Err(DiskFault)
            }
        }
    }
}

impl Disk for BookFiles<'_> {
    ghost tells = { record {
      reads = λ _. None;
      may_leave = λ _ _. ⊤;
      moment = λ _. 0;
      left_since = λ _ _ _. ⊤;
      faults = λ d. d.faults;
      borrow = λ _. 0;
      counts_now = λ d t c le left. left;
      only_now = λ d c left. left;
      reads_one = λ d i is. none_holds i is;
    } };

    fn len(&mut self, area: Area) -> Result<u64, DiskFault> {
        let answer = self.try_len(area);
        self.counted(answer)
    }

    fn read(&mut self, area: Area, at: u64, buf: &mut [u8]) -> Result<(), DiskFault> {
        let answer = self.try_read(area, at, buf);
        self.counted(answer)
    }

    fn write_at(&mut self, _area: Area, _at: u64, _bytes: &[u8]) -> Result<(), DiskFault> {
        self.counted(Err(ErrorKind::PermissionDenied.into()))
    }

    fn sync(&mut self) -> Result<(), DiskFault> {
        Ok(())
    }
}
