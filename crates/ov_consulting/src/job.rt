//! What the words of `book` ask for.

use ov_base::{Mode, Name, Octets};

/// What is asked of the book.
#[derive(Drop)]
pub enum Question {
    /// `key`: the key line of the user.
    Key { user: Name },
    /// `list`: the names in the file's list.
    List { file: Name },
    /// `users`: the users.
    Users,
    /// `files`: the files with their lists.
    Files,
    /// `files` of a user: the files that list the user.
    FilesOf { user: Name },
    /// `epoch`: the number of settled intents.
    Epoch,
    /// `pending`: the intent that isn't settled.
    Pending,
}

/// A question, and the files that it is asked of.
#[derive(Drop)]
pub struct BookJob {
    /// The path of the masters' file.
    pub keys: Octets,
    /// The path of the book's two files without their endings, `.book` and `.blobs`.
    pub book: Octets,
    /// The mode of the book.
    pub mode: Mode,
    /// What is asked.
    pub question: Question,
}
