//! The fault that memory was refused.
use std::alloc::{AllocError, AllocFailed};

/// Memory was refused. Any call that allocates may answer it, and the value that was being changed
/// is then as it was, unless the call says otherwise.
#[derive(Clone, Copy, Debug, PartialEq, Eq)]
pub struct Memory;

impl From<AllocError> for Memory {
    fn from(_: AllocError) -> Self {
        Memory
    }
}

impl<T: Drop> From<AllocFailed<T>> for Memory {
    fn from(_: AllocFailed<T>) -> Self {
        Memory
    }
}
