//! What the words of `own` ask for.

use ov_base::{Mode, Name, Names, Octets};

/// What is to be done by the owner's book.
#[derive(Drop)]
pub enum OwnAct {
    /// `enrol`: the user is added.
    Enrol { user: Name },
    /// `grant`: the file's list gets the user.
    Grant { user: Name, file: Name },
    /// `revoke`: the file's list loses the user.
    Revoke { user: Name, file: Name },
    /// `remove`: the file is removed.
    Remove { file: Name },
    /// `create`: the file is created, for the users of the list.
    Create { file: Name, list: Names },
    /// `replace`: the file gets the bytes of PATH, and its list stays.
    Replace { file: Name },
    /// `resume`: the pending intent is carried out.
    Resume,
}

/// An act, where its server is, the files that it reads, and the book. A word that the act doesn't
/// have is empty.
#[derive(Drop)]
pub struct OwnJob {
    /// The server's address.
    pub address: Octets,
    /// The path of the masters' file.
    pub keys: Octets,
    /// The path of the book's two files without their endings, `.book` and `.blobs`.
    pub book: Octets,
    /// The path of the bytes that are stored.
    pub path: Octets,
    /// The mode of the book and of the store.
    pub mode: Mode,
    /// What is to be done.
    pub act: OwnAct,
}
