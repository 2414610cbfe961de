//! Why frames can't be read.

/// Why a request or an answer can't be read.
#[derive(Clone, Copy, Debug, PartialEq, Eq)]
pub enum WireFault {
    /// The bytes aren't in the grammar: `at` is the place of the first field that nothing in it
    /// continues, counted from the kind byte, or their number where they end too early.
    Bad { at: u32 },
    /// Memory was refused.
    Memory,
}

/// Why a stream can't be cut into frames.
#[derive(Clone, Copy, Debug, PartialEq, Eq)]
pub enum FeedFault {
    /// A length field isn't within its limits; `at` is its place in the stream.
    BadFrame { at: u64 },
    /// Memory was refused, and nothing was taken.
    Memory,
}
