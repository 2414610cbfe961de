//! How much is read at once.

/// How many bytes are taken at once, at most.
pub const PIECE: usize = 8_192;
