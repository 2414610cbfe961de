//! Records appended to a journal over two files of this folder.
use ov_base::Mode;
use ov_disk::FileDisk;
use ov_journal::{Header, Journal};
use std::fs;
use std::test::Fail;

const BODIES: u32 = 10_000;

/// Begins a store and appends 10,000 records of 100 bytes; how many there are.
pub fn appends(rt: HostRuntime) -> Result<usize, Fail> {
    let _ = fs::remove_file(&rt, "speed_book");
    let mut disk = FileDisk::new(rt, "speed_book", "speed_blobs")?;
    let header = Header {
        format: 2,
        mode: Mode::Full,
        first: 0,
        base_check: [0; 32],
        surface_check: [0; 32],
    };
    let mut journal = Journal::birth(rt.alloc(), &mut disk, &header)?;
    'bodies: for i in 0..BODIES {
        journal.reserve(100)?;
        if journal.count() < 20_000 {
            journal.append(&mut disk, &[(i % 256) as u8; 100])?;
        }
    }
    Ok(journal.count() as usize)
}
