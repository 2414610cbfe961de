//! Both areas in memory, as they were at first and as they are.
ghost use Rattle.std.specs.Prelude.{◌≡◌, IfOk, OnOk, OnErr};
ghost use Rattle.ov_disk.specs.Disk.{image, bytes_of, written};
ghost use Rattle.ov_disk.specs.Bytes.{Held};

use crate::Area;
use crate::bytes::Bytes;
use ov_base::{Memory, Octets};
use std::alloc::Global;
use std::marker::Model;

#[derive(Drop)]
pub struct Areas {
    book: Bytes,
    blobs: Bytes,
}

impl Model for Areas {
    ghost Value = { Held };

    ghost view = { λ a. record {
      start = image a.book.start a.blobs.start;
      current = image a.book.current a.blobs.current;
    } };
}

impl Areas {
    pub fn new(book: Octets, blobs: Octets) -> Areas
        ensures { result ≡ record { start = image book blobs; current = image book blobs } }
    {
        Areas {
            book: Bytes::new(book),
            blobs: Bytes::new(blobs),
        }
    }

    /// An area as it is.
    pub fn get(&self, area: Area) -> &[u8]
        ensures { result.now ≡ bytes_of area self.now.current }
    {
        match area {
            Area::Book => self.book.as_slice(),
            Area::Blobs => self.blobs.as_slice(),
        }
    }

    /// Writes over what is there and past the end.
    pub fn write(&mut self, alloc: Global, area: Area, at: u64, bytes: &[u8]) -> Result<(), Memory>
        ensures ok { OnOk result (self.new ≡ record {
          start = self.old.start;
          current = written area at bytes.now self.old.current;
        }) }
        ensures err { OnErr result (self.new ≡ self.old) }
    {
        match area {
            Area::Book => self.book.write(alloc, at, bytes),
            Area::Blobs => self.blobs.write(alloc, at, bytes),
        }
    }

    /// Areas with the present bytes, as if they had been there at first.
    pub fn settled(&self, alloc: Global) -> Result<Areas, Memory>
        ensures { IfOk result (λ a.
            a ≡ record { start = self.now.current; current = self.now.current }) }
    {
        let book = Octets::copy(alloc, self.book.as_slice())?;
        let blobs = Octets::copy(alloc, self.blobs.as_slice())?;
        Ok(Areas::new(book, blobs))
    }

    /// The bytes at first.
    pub fn started(&self, alloc: Global) -> Result<Areas, Memory>
        ensures { IfOk result (λ a.
            a ≡ record { start = self.now.start; current = self.now.start }) }
    {
        let book = Octets::copy(alloc, self.book.start())?;
        let blobs = Octets::copy(alloc, self.blobs.start())?;
        Ok(Areas::new(book, blobs))
    }
}
