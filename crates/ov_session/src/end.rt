//! How a session ends.

/// How a session ended.
#[derive(Clone, Copy, Debug, PartialEq, Eq)]
pub enum SessionEnd {
    /// The input ended between two frames.
    End,
    /// The stream couldn't be read, or couldn't be written.
    LinkFault,
    /// The input isn't frames: `at` is the place of a length field outside its limits, or the
    /// number of bytes that came where the input ended inside a frame.
    Bad { at: u64 },
    /// The asker has asked as often as it may.
    Spent,
    /// There was no memory to read on. What was taken and not asked is at most an unfinished frame
    /// and one piece behind it.
    Memory,
}
