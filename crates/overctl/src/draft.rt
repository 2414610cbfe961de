//! A result that is to be a file: it is written under another name beside that file, and takes its
//! place only as a whole.
ghost use Rattle.std.specs.Prelude.{◌≡◌, None, ⊤};

use ov_base::Memory;
use ov_io::{Fault, Sink};
use std::fs::{File, OpenOptions};
use std::io::{ErrorKind, Write};
use std::os::unix::fs::{MetadataExt, OpenOptionsExt, PermissionsExt};
use std::{fs, io};

// Bytes that are kept in memory at first, more than the line of a refusal has.
const SHORT: usize = 64;

// How many names beside the file are tried.
const MOST_NAMES: u32 = 100;

// The mode of a file that its owner alone may read and write.
const PRIVATE: u32 = 0o600;

// The mode of any other new file, as far as the system's mask lets it be.
const SHARED: u32 = 0o666;

// What a mode says of who may read, write and run a file.
const RIGHTS: u32 = 0o777;

/// Why no result can be put in the place of a file.
#[derive(Clone, Copy, Debug, PartialEq, Eq)]
pub enum Unfit {
    /// It is a folder, a device or another thing that isn't a regular file.
    NoFile,
    /// It has the keys of the command.
    Keys,
}

/// Why no result can be put in the place of this file by a command with this file of keys, if so.
pub fn unfit_of(rt: &HostRuntime, path: &str, keys: &str) -> Option<Unfit> {
    let about = fs::metadata(rt, path).ok()?;
    if !about.is_file() {
        return Some(Unfit::NoFile);
    }
    let of_keys = fs::metadata(rt, keys).ok()?;
    (about.dev() == of_keys.dev() && about.ino() == of_keys.ino()).then_some(Unfit::Keys)
}

// The mode of a new file for this path: that of the file that is there, since nobody else is to
// read what comes in its place.
fn mode_at(rt: &HostRuntime, path: &str) -> u32 {
    match fs::metadata(rt, path) {
        Ok(about) => about.permissions().mode() & RIGHTS,
        Err(_) => SHARED,
    }
}

// A file beside the one that is meant, and its name.
#[derive(Drop)]
struct Beside {
    name: String,
    file: File,
}

impl Beside {
    // A new file beside the one at this path.
    fn new(rt: &HostRuntime, path: &str, mode: u32) -> io::Result<Beside> {
        for number in 0..MOST_NAMES {
            let name = format!(in rt.alloc(); "{path}.part{number}")?;
            let made = OpenOptions::new()
                .write(true)
                .create_new(true)
                .mode(mode)
                .open(rt, name.as_str());
            match made {
                Ok(file) => return Ok(Beside { name, file }),
                Err(error) => {
                    if error.kind() != ErrorKind::AlreadyExists {
                        return Err(error);
                    }
                }
            }
        }
        Err(io::Error::from(ErrorKind::AlreadyExists))
    }
}

/// A sink whose bytes are to be a file. It tells nothing of them. Few bytes stay in memory until it
/// is known whether they are a result or a refusal; with more it writes the file beside.
#[derive(Drop)]
pub struct Draft {
    rt: HostRuntime,
    path: String,
    mode: u32,
    kept: Vec<u8>,
    beside: Option<Beside>,
    reason: Option<ErrorKind>,
    faults: u64,
}

impl Draft {
    /// A draft of the file at this path, which only its owner may read where it is private.
    pub fn new(rt: HostRuntime, path: &str, is_private: bool) -> Result<Draft, Memory> {
        let mode = if is_private {
            PRIVATE
        } else {
            mode_at(&rt, path)
        };
        Ok(Draft {
            rt,
            path: String::from_str(rt.alloc(), path)?,
            mode,
            kept: Vec::new(rt.alloc()),
            beside: None,
            reason: None,
            faults: 0,
        })
    }

    /// The bytes that stay in memory, which are all where the file beside wasn't begun.
    pub fn kept(&self) -> &[u8] {
        self.kept.as_slice()
    }

    /// Why the last call that failed did, where the system said so.
    pub fn reason(&self) -> Option<ErrorKind> {
        self.reason
    }

    // Begins the file beside, with what was kept.
    fn begin(&mut self) -> io::Result<()>
        ensures { self.new.faults ≡ self.old.faults }
    {
        if self.beside.is_none() {
            let mut beside = Beside::new(&self.rt, self.path.as_str(), self.mode)?;
            let written = beside.file.write_all(self.kept.as_slice());
            self.beside = Some(beside);
            written?;
            self.kept.clear();
        }
        Ok(())
    }

    // Keeps the bytes, or writes them.
    fn write(&mut self, bytes: &[u8]) -> io::Result<()>
        ensures { self.new.faults ≡ self.old.faults }
    {
        if self.beside.is_none() && self.kept.len().saturating_add(bytes.len()) <= SHORT {
            self.kept.extend_from_slice(bytes)?;
            return Ok(());
        }
        self.begin()?;
        match &mut self.beside {
            Some(beside) => beside.file.write_all(bytes),
            None => Err(io::Error::from(ErrorKind::Other)),
        }
    }

    // Has all bytes on the disk, and gives the file beside its name.
    fn put_in_place(&mut self) -> io::Result<()> {
        self.begin()?;
        match &self.beside {
            Some(beside) => {
                // A file that has its name has its bytes, whenever the machine stops.
                beside.file.sync_all()?;
                fs::rename(&self.rt, beside.name.as_str(), self.path.as_str())
            }
            None => Err(io::Error::from(ErrorKind::Other)),
        }
    }

    /// Puts the result in the place of its file, as a whole. Where that fails the file is as it was.
    pub fn settle(&mut self) -> Result<(), Fault> {
        match self.put_in_place() {
            Ok(()) => {
                self.beside = None;
                Ok(())
            }
            Err(error) => {
                self.reason = Some(error.kind());
                self.discard();
                Err(Fault)
            }
        }
    }

    /// Removes the file beside, where it was begun.
    pub fn discard(&mut self) {
        if let Some(beside) = self.beside.take() {
            let _ = fs::remove_file(&self.rt, beside.name.as_str());
        }
    }
}

impl Sink for Draft {
    ghost tells = { record {
      written = λ _. None;
      faults = λ d. d.faults;
      borrow = λ _. 0;
      puts = λ _ _. ⊤;
    } };

    fn put(&mut self, bytes: &[u8]) -> Result<(), Fault> {
        match self.write(bytes) {
            Ok(()) => Ok(()),
            Err(error) => {
                self.reason = Some(error.kind());
                self.faults = self.faults.saturating_add(1);
                Err(Fault)
            }
        }
    }
}
