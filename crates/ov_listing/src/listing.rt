//! What a store has at one epoch.

use ov_base::{Mode, Name, Names};

/// A file, and the names of the users in its list, by user number.
#[derive(Drop)]
pub struct Listed {
    pub file: Name,
    pub names: Names,
}

/// What a store has at one epoch. Users and files are in the order of their numbers; files that are
/// gone are left out.
#[derive(Drop)]
pub struct Listing {
    pub mode: Mode,
    pub epoch: u32,
    pub users: Vec<Name>,
    pub files: Vec<Listed>,
}

/// What is asked for beside mode, epoch and users.
#[derive(Clone, Copy, Debug, PartialEq, Eq)]
pub enum Wanted {
    /// Nothing.
    Users,
    /// The files with their lists.
    Files,
}
