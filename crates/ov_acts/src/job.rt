//! What the words of a command line ask for.

use ov_base::{Name, Names, Octets};

/// What is to be done.
#[derive(Drop)]
pub enum Act {
    /// `enrol`: the user is added.
    Enrol { user: Name },
    /// `grant`: the file's list gets the user.
    Grant { user: Name, file: Name },
    /// `revoke`: the file's list loses the user.
    Revoke { user: Name, file: Name },
    /// `remove`: the file is gone.
    Remove { file: Name },
    /// `create`: the file is made, for the users of the list.
    Create { file: Name, list: Names },
    /// `replace`: the file is gone, and one of its name and list has the bytes of PATH.
    Replace { file: Name },
    /// `list`: the names in the file's list are asked for.
    List { file: Name },
    /// `key`: the user's key line is asked for.
    Key { user: Name },
    /// `read`: the file's bytes are asked for.
    Read { file: Name },
    /// `check`: the base master's check value is computed.
    Check,
}

/// An act, where its server is, and the files that it reads. A word that the command doesn't have
/// is empty.
#[derive(Drop)]
pub struct Job {
    /// The server's address.
    pub address: Octets,
    /// The path of the masters' file, or of that of a user key line.
    pub keys: Octets,
    /// The path of the bytes that are stored.
    pub path: Octets,
    /// What is to be done.
    pub act: Act,
}
