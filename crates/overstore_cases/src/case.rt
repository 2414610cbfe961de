//! What the lines of a case have set so far.
use ov_disk::MemDisk;
use std::alloc::{AllocError, Global};

/// The usual key file: two lines of 64 digits, the second in upper case.
pub const KEYS: &[u8] = b"000102030405060708090a0b0c0d0e0f101112131415161718191a1b1c1d1e1f\n\
    E0E1E2E3E4E5E6E7E8E9EAEBECEDEEEFF0F1F2F3F4F5F6F7F8F9FAFBFCFDFEFF\n";

/// The number of a call that is never made.
pub const NEVER: u64 = 1_000_000_000_000;

/// The number of the call that fails, of each source and sink.
#[derive(Clone, Copy)]
pub struct Fails {
    pub keys: u64,
    pub script: u64,
    pub lines: u64,
    pub frames: u64,
}

impl Fails {
    /// No call fails.
    pub fn none() -> Fails {
        Fails {
            keys: NEVER,
            script: NEVER,
            lines: NEVER,
            frames: NEVER,
        }
    }
}

/// A script and a key file, the longest piece in which they come, and how often the script is
/// repeated.
#[derive(Drop)]
pub struct Inputs {
    pub script: Vec<u8>,
    pub keys: Vec<u8>,
    pub piece: usize,
    pub repeats: u32,
}

/// The inputs and the disk of the next call, and the disk that takes a shorter store.
#[derive(Drop)]
pub struct Case {
    pub inputs: Inputs,
    pub is_asked: bool,
    pub fails: Fails,
    pub disk: MemDisk,
    pub other: MemDisk,
}

impl Case {
    /// No script, the usual key file, and two new disks. Sources give pieces of this length.
    pub fn new(alloc: Global, piece: usize) -> Result<Case, AllocError> {
        let inputs = Inputs {
            script: Vec::new(alloc),
            keys: KEYS.to_vec(alloc)?,
            piece,
            repeats: 0,
        };
        Ok(Case {
            inputs,
            is_asked: false,
            fails: Fails::none(),
            disk: MemDisk::new(alloc),
            other: MemDisk::new(alloc),
        })
    }
}
