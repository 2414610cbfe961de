//! Records of updates without the bytes of their files.

use crate::Brief;
use ov_tokens::Numbers;

/// A record of a store that keeps the bytes of its files apart from its records.
#[derive(Drop)]
pub struct Stored<const W: usize> {
    /// The update.
    pub update: Brief<W>,
    /// The first block of each file that has a byte and whose stored bytes are new by the update,
    /// by file number.
    pub places: Numbers,
}
