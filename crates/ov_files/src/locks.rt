//! The lock of a file that is written.

use os::RangeLock;
use std::os::fd::AsRawFd;

/// Locks a whole file that is open for writing: whether that was possible, as it isn't where somebody
/// else has it, in this program or in another. The lock ends when the file is closed.
pub fn is_locked_now<F: AsRawFd>(file: &F) -> bool {
    os::try_lock_range(file.as_raw_fd(), RangeLock::Exclusive, 0, 1 << 62) == 0
}
