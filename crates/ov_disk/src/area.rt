//! The two areas of a disk, and its fault.

/// A part of a disk, with a length of its own.
#[derive(Clone, Copy, Debug, PartialEq, Eq)]
pub enum Area {
    /// What happened, in order: the header and the records.
    Book,
    /// Bytes that records point to.
    Blobs,
}

/// A call of a disk failed. Any part of what it does may have been done.
#[derive(Clone, Copy, Debug, PartialEq, Eq)]
pub struct DiskFault;
