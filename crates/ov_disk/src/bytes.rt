//! The bytes of one area in memory, as they were at first and as they are now.
ghost use Rattle.std.specs.Prelude.{◌≡◌, ◌≤◌, length, OnOk, OnErr};
ghost use Rattle.ov_disk.specs.Disk.{overwritten};
ghost use Rattle.ov_disk.specs.Bytes.{Grown, current_or};

use ov_base::{Memory, Octets};
use std::alloc::Global;
use std::marker::Model;

/// The bytes of an area: kept as at first, and copied before the first change.
#[derive(Drop)]
pub struct Bytes {
    start: Octets,
    current: Option<Vec<u8>>,
}

impl Model for Bytes {
    ghost Value = { Grown };

    ghost view = { λ b. record { start = b.start; current = current_or b.start b.current } };
}

impl Bytes {
    pub fn new(start: Octets) -> Bytes
        ensures { result ≡ record { start = start; current = start } }
    {
        Bytes {
            start,
            current: None,
        }
    }

    pub fn start(&self) -> &[u8]
        ensures { result.now ≡ self.now.start }
    {
        self.start.as_slice()
    }

    pub fn as_slice(&self) -> &[u8]
        ensures { result.now ≡ self.now.current }
    {
        match &self.current {
            Some(current) => current.as_slice(),
            None => self.start.as_slice(),
        }
    }

    /// Writes over what is there and past the end.
    pub fn write(&mut self, alloc: Global, at: u64, bytes: &[u8]) -> Result<(), Memory>
        ensures ok { OnOk result (self.new ≡ record {
          start = self.old.start;
          current = overwritten at bytes.now self.old.current;
        }) }
        ensures err { OnErr result (self.new ≡ self.old) }
    {
        match &mut self.current {
            Some(current) => overwrite(current, at, bytes),
            None => {
                let mut current = self.start.as_slice().to_vec(alloc)?;
                overwrite(&mut current, at, bytes)?;
                self.current = Some(current);
                Ok(())
            }
        }
    }
}

/// Writes over what is there and past the end.
pub fn overwrite(current: &mut Vec<u8>, at: u64, bytes: &[u8]) -> Result<(), Memory>
    ensures ok { OnOk result (current.new.items ≡ overwritten at bytes.now current.old.items) }
    ensures err { OnErr result (current.new.items ≡ current.old.items) }
{
    let at = (at as usize).min(current.len());
    let inside = bytes.len().min(current.len() - at);
    let (over, past) = bytes.split_at(inside);
    current.extend_from_slice(past)?;
    current[at..at + inside].copy_from_slice(over);
    Ok(())
}
