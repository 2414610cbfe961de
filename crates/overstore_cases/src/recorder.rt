//! A sink that records what is put by its length, its hash and its first bytes. No clause says what
//! was put, so that no proof computes it.
ghost use Rattle.std.specs.Prelude.{◌≡◌, None};

use ov_io::{Fault, Sink};
use sha2::{Digest, Sha256};
use std::alloc::{AllocError, Global};
use std::str;
use std::test::Fail;

/// The longest lines that are printed as they are.
const LONGEST: u64 = 1000;

/// Counts and hashes all bytes, keeps the first of them, and fails at one of its calls.
#[derive(Drop)]
pub struct Recorder {
    hasher: Sha256,
    count: u64,
    first: Vec<u8>,
    fails: u64,
    puts: u64,
}

impl Recorder {
    /// Nothing was put yet. The call of the number `fails` will fail.
    pub fn new(alloc: Global, fails: u64) -> Recorder {
        Recorder {
            hasher: Sha256::new(),
            count: 0,
            first: Vec::new(alloc),
            fails,
            puts: 0,
        }
    }

    /// How many calls there were.
    pub fn puts(&self) -> u64 {
        self.puts
    }

    /// The bytes that were put, where they are few, and else the first of them.
    pub fn first(&self) -> &[u8] {
        &self.first
    }

    /// The lines that were put. Of lines that are long, or no text, it gives the length and the
    /// hash.
    pub fn text(self, alloc: Global) -> Result<String, Fail> {
        if self.count <= LONGEST {
            if let Ok(text) = str::from_utf8(&self.first) {
                return Ok(String::from_str(alloc, text)?);
            }
        }
        let sum = self.sum(alloc)?;
        Ok(format!(in alloc; "  {sum} in all\n")?)
    }

    /// How many bytes were put, and the first digits of their hash.
    pub fn sum(self, alloc: Global) -> Result<String, Fail> {
        let (count, hash) = (self.count, hash_of(alloc, self.hasher)?);
        Ok(format!(in alloc; "{count} {hash}")?)
    }

    // Adds these bytes to what is recorded.
    fn record_bytes(&mut self, bytes: &[u8]) -> Result<(), AllocError>
        ensures { self.new.puts ≡ self.old.puts }
    {
        if self.count <= LONGEST {
            self.first.extend_from_slice(bytes)?;
        }
        self.count = self.count.saturating_add(bytes.len() as u64);
        self.hasher.update(bytes);
        Ok(())
    }
}

impl Sink for Recorder {
    ghost tells = { record {
      written = λ _. None;
      faults = λ s. s.puts;
      borrow = λ _. 0;
      puts = λ _ _. Unit {0};
    } };

    fn put(&mut self, bytes: &[u8]) -> Result<(), Fault> {
        let put = self.puts;
        self.puts = put.saturating_add(1);
        if put == self.fails {
            return Err(Fault);
        }
        match self.record_bytes(bytes) {
            Ok(()) => Ok(()),
            Err(_) => Err(Fault),
        }
    }
}

// The first 16 digits of a hash, enough to tell two runs apart.
fn hash_of(alloc: Global, hasher: Sha256) -> Result<String, Fail> {
    let digest = hasher.finalize();
    let first = digest.as_slice().get(..8).unwrap_or(b"");
    Ok(hex::encode(alloc, first)?)
}

/// How many bytes these are, and the first digits of their hash.
pub fn sum_of(alloc: Global, bytes: &[u8]) -> Result<String, Fail> {
    let mut hasher = Sha256::new();
    hasher.update(bytes);
    let (count, hash) = (bytes.len(), hash_of(alloc, hasher)?);
    Ok(format!(in alloc; "{count} {hash}")?)
}
