//! Which file it is that has a name.

use std::fs::Metadata;
use std::os::unix::fs::MetadataExt;

/// A file of the system, whatever its names are.
#[derive(Clone, Copy, PartialEq, Eq)]
pub struct FileId {
    device: u64,
    inode: u64,
}

impl FileId {
    /// The file of which the system says this.
    pub fn of(about: &Metadata) -> FileId {
        FileId {
            device: about.dev(),
            inode: about.ino(),
        }
    }
}
