//! The files that a program writes, opened so that nothing else is lost by it.

use crate::identity::FileId;
use crate::locks::is_locked_now;
use std::alloc::Allocator;
use std::fs::{self, Metadata, OpenFile, OpenOptions};
use std::io::{self, ErrorKind};
use std::os::fd::AsRawFd;
use std::os::unix::fs::OpenOptionsExt;
use std::rt::Files;

// A file that is made here may be read and written by its owner alone.
const PRIVATE: u32 = 0o600;

/// The files of a runtime, among which a program opens its own. What is opened to be written is a
/// device, or a regular file with these properties: its name itself leads to it, and is no symbolic
/// link; it isn't the file that holds the program's keys; and nobody else has it locked. It is locked
/// then, and only after all that is it made empty, where that is asked. So a name that leads to
/// another file loses nothing of that file.
#[derive(Clone, Copy)]
pub struct OwnFiles<R> {
    rt: R,
    keys: Option<FileId>,
}

impl<R: Files> OwnFiles<R> {
    /// The files of this runtime, for a program whose keys are in the file at this path.
    pub fn beside(rt: R, keys: &str) -> OwnFiles<R> {
        let keys = match fs::metadata(&rt, keys) {
            Ok(about) => Some(FileId::of(&about)),
            Err(_) => None,
        };
        OwnFiles { rt, keys }
    }

    // Opens a file that is there with all its bytes, or makes it. A link that leads nowhere isn't
    // followed: what is made is new.
    fn open_whole(&self, how: &OpenOptions, path: &str) -> io::Result<R::File> {
        let mut plain = OpenOptions::new();
        plain
            .read(how.asks_read())
            .write(how.asks_write())
            .append(how.asks_append())
            .mode(PRIVATE);
        match plain.open(&self.rt, path) {
            Err(error) if error.kind() == ErrorKind::NotFound && how.asks_create() => {
                plain.create_new(true).open(&self.rt, path)
            }
            opened => opened,
        }
    }

    // Whether this name itself, and no link, leads to this file, which isn't that of the keys.
    fn is_own(&self, path: &str, about: &Metadata) -> io::Result<bool> {
        let file = FileId::of(about);
        let named = FileId::of(&fs::symlink_metadata(&self.rt, path)?);
        Ok(named == file && self.keys != Some(file))
    }
}

impl<R: Files> OwnFiles<R>
where
    R::File: AsRawFd,
{
    // Takes a file that was opened by this name for the program's own.
    fn take(&self, file: &R::File, path: &str, empties: bool) -> io::Result<()> {
        let about = file.metadata()?;
        if !about.is_file() {
            return Ok(());
        }
        if !self.is_own(path, &about)? {
            return Err(ErrorKind::Unsupported.into());
        }
        if !is_locked_now(file) {
            return Err(ErrorKind::WouldBlock.into());
        }
        if empties { file.set_len(0) } else { Ok(()) }
    }
}

impl<R: Files> Files for OwnFiles<R>
where
    R::File: AsRawFd,
{
    type File = R::File;

    type Dir = R::Dir;

    fn open_file(&self, how: &OpenOptions, path: &str) -> io::Result<R::File> {
        if !how.asks_write() && !how.asks_append() {
            return self.rt.open_file(how, path);
        }
        how.check()?;
        let file = self.open_whole(how, path)?;
        self.take(&file, path, how.asks_truncate())?;
        Ok(file)
    }

    fn open_dir(&self, path: &str) -> io::Result<R::Dir> {
        self.rt.open_dir(path)
    }

    fn metadata(&self, path: &str) -> io::Result<Metadata> {
        self.rt.metadata(path)
    }

    fn symlink_metadata(&self, path: &str) -> io::Result<Metadata> {
        self.rt.symlink_metadata(path)
    }

    fn copy(&self, from: &str, to: &str) -> io::Result<u64> {
        self.rt.copy(from, to)
    }

    fn rename(&self, from: &str, to: &str) -> io::Result<()> {
        self.rt.rename(from, to)
    }

    fn remove_file(&self, path: &str) -> io::Result<()> {
        self.rt.remove_file(path)
    }

    fn create_dir(&self, path: &str) -> io::Result<()> {
        self.rt.create_dir(path)
    }

    fn remove_dir(&self, path: &str) -> io::Result<()> {
        self.rt.remove_dir(path)
    }

    fn remove_dir_all<B: Allocator>(&self, alloc: B, path: &str) -> io::Result<()> {
        self.rt.remove_dir_all(alloc, path)
    }
}

impl<R: Alloc> Alloc for OwnFiles<R> {
    type A = R::A;

    fn alloc(&self) -> R::A {
        self.rt.alloc()
    }
}
