//! What the lines of a case have set so far.
use ov_base::{Key, Octets};
use std::alloc::{AllocError, Global};

/// The usual key file: the masters 0 to 31 and 32 to 63.
const KEYS: &[u8] = b"000102030405060708090a0b0c0d0e0f101112131415161718191a1b1c1d1e1f\n\
    202122232425262728292a2b2c2d2e2f303132333435363738393a3b3c3d3e3f\n";

/// The masters of an owner, the key file or line, the length of the file at PATH, and the replies.
#[derive(Drop)]
pub struct Case {
    pub base: Key,
    pub surface: Key,
    pub keys: Vec<u8>,
    pub length: usize,
    pub replies: Vec<Octets>,
    pub is_asked: bool,
    /// The numbers of the calls that fail: asks, reads of the key file and of the file at PATH or of
    /// a stream, and writes.
    pub failing_asks: Vec<u8>,
    pub failing_keys: Vec<u8>,
    pub failing_takes: Vec<u8>,
    pub failing_puts: Vec<u8>,
}

impl Case {
    /// The masters of 32 bytes 0x11 and of 32 bytes 0x22, the usual key file, and no replies.
    pub fn new(alloc: Global) -> Result<Case, AllocError> {
        Ok(Case {
            base: Key { bytes: [0x11; 32] },
            surface: Key { bytes: [0x22; 32] },
            keys: KEYS.to_vec(alloc)?,
            length: 0,
            replies: Vec::new(alloc),
            is_asked: false,
            failing_asks: Vec::new(alloc),
            failing_keys: Vec::new(alloc),
            failing_takes: Vec::new(alloc),
            failing_puts: Vec::new(alloc),
        })
    }

    /// From here on no call fails.
    pub fn mend(&mut self) {
        self.failing_asks.truncate(0);
        self.failing_keys.truncate(0);
        self.failing_takes.truncate(0);
        self.failing_puts.truncate(0);
    }
}
