//! What the lines of a case have set so far.
use ov_base::{Key, Mode};
use ov_disk::MemDisk;
use std::alloc::Global;

/// What a store is begun with, and the base master by which its records are looked at.
#[derive(Clone, Copy)]
pub struct Keys {
    pub surface: Key,
    pub base_check: [u8; 32],
    pub owner: Key,
    pub mode: Mode,
}

/// The keys, the frames that are asked, the questions about what is left, and the disk.
#[derive(Drop)]
pub struct Case {
    pub keys: Keys,
    pub frames: Vec<String>,
    pub questions: Vec<String>,
    pub is_asked: bool,
    pub disk: MemDisk,
    /// How many calls the disk had when the last frame was answered.
    pub calls: u64,
    /// The numbers of the calls that fail: reads and writes of a stream or of lines, calls of a
    /// door, and those of a server's disk.
    pub failing_takes: Vec<u8>,
    pub failing_puts: Vec<u8>,
    pub failing_doors: Vec<u8>,
    pub failing_disks: Vec<u8>,
    /// The lines of a settings file, each with its key, how many words name it, and the length to
    /// which it is filled up.
    pub lines: Vec<(String, String)>,
    pub words: u32,
    pub padded: usize,
}

impl Case {
    /// The usual keys, mode Delta, no frames, and a new disk.
    pub fn new(alloc: Global) -> Case {
        Case {
            keys: Keys {
                surface: Key { bytes: [7; 32] },
                base_check: [0x11; 32],
                owner: Key { bytes: [8; 32] },
                mode: Mode::Delta,
            },
            frames: Vec::new(alloc),
            questions: Vec::new(alloc),
            is_asked: false,
            disk: MemDisk::new(alloc),
            calls: 0,
            failing_takes: Vec::new(alloc),
            failing_puts: Vec::new(alloc),
            failing_doors: Vec::new(alloc),
            failing_disks: Vec::new(alloc),
            lines: Vec::new(alloc),
            words: 1,
            padded: 0,
        }
    }

    /// From here on no call fails.
    pub fn mend(&mut self) {
        self.failing_takes.truncate(0);
        self.failing_puts.truncate(0);
        self.failing_doors.truncate(0);
        self.failing_disks.truncate(0);
    }
}
