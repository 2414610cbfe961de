//! Two files that are held: locked, and synced where they were written.
use crate::Area;
use os::RangeLock;
use std::fs::{OpenFile, OpenOptions};
use std::os::fd::AsRawFd;
use std::os::unix::fs::{FileExt, OpenOptionsExt};
use std::path::Path;
use std::rt::Files;
use std::{fs, io};

/// A locked file, and whether it was written since its last sync.
#[derive(Drop)]
struct Held<F: Drop> {
    file: F,
    is_dirty: bool,
}

/// The files of both areas.
#[derive(Drop)]
pub struct Pair<F: Drop> {
    book: Held<F>,
    blobs: Held<F>,
}

impl<F: FileExt + OpenFile + Drop> Held<F> {
    fn write(&mut self, at: u64, bytes: &[u8]) -> io::Result<()> {
        self.is_dirty = true;
        self.file.write_all_at(bytes, at)
    }

    // Data and length, as far as they are needed to read the file again.
    fn sync(&mut self) -> io::Result<()> {
        if self.is_dirty {
            self.file.sync_data()?;
            self.is_dirty = false;
        }
        Ok(())
    }
}

impl<F: FileExt + OpenFile + Drop> Pair<F> {
    fn file(&self, area: Area) -> &F {
        match area {
            Area::Book => &self.book.file,
            Area::Blobs => &self.blobs.file,
        }
    }

    pub fn len(&self, area: Area) -> io::Result<u64> {
        Ok(self.file(area).metadata()?.len())
    }

    pub fn read(&self, area: Area, at: u64, buf: &mut [u8]) -> io::Result<()> {
        self.file(area).read_exact_at(buf, at)
    }

    pub fn write(&mut self, area: Area, at: u64, bytes: &[u8]) -> io::Result<()> {
        match area {
            Area::Book => self.book.write(at, bytes),
            Area::Blobs => self.blobs.write(at, bytes),
        }
    }

    pub fn sync(&mut self) -> io::Result<()> {
        self.blobs.sync()?;
        self.book.sync()
    }
}

// The folder that a path lies in.
fn folder_of(path: &str) -> &str {
    match Path::new(path).parent() {
        Some(folder) => {
            let folder = folder.as_str();
            if folder.is_empty() { "." } else { folder }
        }
        None => ".",
    }
}

// What a file that is made here may be used for, and by whom: read and written by its owner alone,
// since a book has every name and every list in it.
const PRIVATE: u32 = 0o600;

// Opens a regular file, or makes it, and locks it.
fn open_held<R: Files>(rt: &R, path: &str) -> io::Result<Held<R::File>>
where
    R::File: FileExt + AsRawFd,
{
    let file = OpenOptions::new()
        .read(true)
        .write(true)
        .create(true)
        .mode(PRIVATE)
        .open(rt, path)?;
    if !file.metadata()?.is_file() {
        return Err(io::ErrorKind::Unsupported.into());
    }
    if os::try_lock_range(file.as_raw_fd(), RangeLock::Exclusive, 0, 1 << 62) != 0 {
        return Err(io::ErrorKind::WouldBlock.into());
    }
    // An earlier program may have left writes that weren't synced, or pages that a sync of its own
    // failed to keep: those are dropped, so that what is read is what the disk has.
    file.sync_all()?;
    let status = libc::posix_fadvise(file.as_raw_fd(), 0, 0, libc::POSIX_FADV_DONTNEED);
    if status != 0 {
        return Err(io::Error::from_raw_os_error(status));
    }
    Ok(Held {
        file,
        is_dirty: true,
    })
}

/// Opens and locks both files, and makes their names in their folders last.
pub fn open_pair<R: Files>(rt: &R, book: &str, blobs: &str) -> io::Result<Pair<R::File>>
where
    R::File: FileExt + AsRawFd,
{
    let pair = Pair {
        book: open_held(rt, book)?,
        blobs: open_held(rt, blobs)?,
    };
    fs::open(rt, folder_of(book))?.sync_all()?;
    fs::open(rt, folder_of(blobs))?.sync_all()?;
    Ok(pair)
}
