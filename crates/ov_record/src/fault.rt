//! Why a record can't be read.

/// Why a record can't be read.
#[derive(Clone, Copy, Debug, PartialEq, Eq)]
pub enum RecordFault {
    /// The bytes spell no update: `at` is the place of the first field that no spelling continues,
    /// or their number where they end too early.
    BadRecord { at: u32 },
    /// Memory was refused.
    Memory,
}
