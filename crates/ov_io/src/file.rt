//! Files as sources and sinks. What a file really holds is trusted.
ghost use Rattle.std.specs.Prelude.{◌≡◌, IfOk, ⊤};
ghost use Rattle.std.specs.Io.{ReadsAtMost};
ghost use Rattle.std.specs.Io.KnownBytes.{ReadConsumes};
ghost use Rattle.ov_base.specs.Causes.{Counts, HasCause};
ghost use Rattle.ov_io.specs.Files.{left_of, written_of};
ghost use Rattle.ov_io.specs.Putting.{Puts};

use crate::outside::{read_some, write_all};
use crate::{Fault, Sink, Source};
use ov_base::Memory;
use std::fs::{self, OpenOptions};
use std::os::unix::fs::OpenOptionsExt;
use std::rt::Files;

/// The file at a path, which is opened at the first call and from then on tells of its bytes what
/// the files of the runtime tell. A file that can't be opened is a fault of that call; the next one
/// tries again.
#[derive(Drop)]
pub struct FileSource<R: Files + Alloc + Drop> {
    rt: R,
    path: String<R::A>,
    file: Option<R::File>,
    faults: u64,
}

impl<R: Files + Alloc + Drop> FileSource<R> {
    /// A source over this path, which has not failed yet.
    pub fn new(rt: R, path: &str) -> Result<FileSource<R>, Memory>
        ensures { IfOk result (λ source. source.faults ≡ 0) }
    {
        let path = String::from_str(rt.alloc(), path)?;
        Ok(FileSource {
            rt,
            path,
            file: None,
            faults: 0,
        })
    }

    // Opens the file where it isn't open, and reads.
    fn read(&mut self, buf: &mut [u8]) -> Result<usize, Fault>
        ensures bound { ReadsAtMost result buf.new }
        ensures bytes { ReadConsumes (left_of R.File.remaining self.old.file)
            (left_of R.File.remaining self.new.file) result buf.new }
        ensures same { self.new.faults ≡ self.old.faults }
    {
        if self.file.is_none() {
            self.file = fs::open(&self.rt, self.path.as_str()).ok();
        }
        match &mut self.file {
            Some(file) => read_some(file, buf),
            None => Err(Fault),
        }
    }
}

impl<R: Files + Alloc + Drop> Source for FileSource<R> {
    ghost tells = { record {
      left = λ s. left_of R.File.remaining s.file;
      faults = λ s. s.faults;
      borrow = λ _. 0;
      takes = λ _ _. ⊤;
    } };

    fn take(&mut self, buf: &mut [u8]) -> Result<usize, Fault>
        ensures bound { ReadsAtMost result buf.new }
        ensures bytes { ReadConsumes (left_of R.File.remaining self.old.file)
            (left_of R.File.remaining self.new.file) result buf.new }
        ensures cause { HasCause self.old.faults self.new.faults result }
        ensures counted { Counts self.old.faults self.new.faults result }
    {
        let taken = self.read(buf);
        if taken.is_err() {
            self.faults = self.faults.saturating_add(1);
        }
        taken
    }
}

/// The file at a path, which the first call makes empty. From then on it tells of its bytes what
/// the files of the runtime tell. What was there before is lost at that call, and not earlier. A
/// file that is new may be read and written by its owner alone. A file that can't be made is a
/// fault of that call; the next one tries again.
#[derive(Drop)]
pub struct FileSink<R: Files + Alloc + Drop> {
    rt: R,
    path: String<R::A>,
    file: Option<R::File>,
    faults: u64,
}

impl<R: Files + Alloc + Drop> FileSink<R> {
    /// A sink over this path, which has not failed yet.
    pub fn new(rt: R, path: &str) -> Result<FileSink<R>, Memory>
        ensures { IfOk result (λ sink. sink.faults ≡ 0) }
    {
        let path = String::from_str(rt.alloc(), path)?;
        Ok(FileSink {
            rt,
            path,
            file: None,
            faults: 0,
        })
    }

    // Makes the file where it isn't open, and writes.
    fn write(&mut self, bytes: &[u8]) -> Result<(), Fault>
        ensures bytes { Puts (written_of R.File.contents self.old.file)
            (written_of R.File.contents self.new.file) result bytes.now }
        ensures same { self.new.faults ≡ self.old.faults }
    {
        if self.file.is_none() {
            self.file = OpenOptions::new()
                .write(true)
                .create(true)
                .truncate(true)
                .mode(0o600)
                .open(&self.rt, self.path.as_str())
                .ok();
        }
        match &mut self.file {
            Some(file) => write_all(file, bytes),
            None => Err(Fault),
        }
    }
}

impl<R: Files + Alloc + Drop> Sink for FileSink<R> {
    ghost tells = { record {
      written = λ s. written_of R.File.contents s.file;
      faults = λ s. s.faults;
      borrow = λ _. 0;
      puts = λ _ _. ⊤;
    } };

    fn put(&mut self, bytes: &[u8]) -> Result<(), Fault>
        ensures bytes { Puts (written_of R.File.contents self.old.file)
            (written_of R.File.contents self.new.file) result bytes.now }
        ensures cause { HasCause self.old.faults self.new.faults result }
        ensures counted { Counts self.old.faults self.new.faults result }
    {
        let written = self.write(bytes);
        if written.is_err() {
            self.faults = self.faults.saturating_add(1);
        }
        written
    }
}
