//! Requests to a server.

use ov_base::{Name, Names, Octets};

/// A command whose numbers are asked for, by its names.
#[derive(Drop)]
pub enum Question {
    /// To enrol this user.
    Enrol { user: Name },
    /// To put the user onto the file's list.
    Grant { user: Name, file: Name },
    /// To take the user off the file's list.
    Revoke { user: Name, file: Name },
    /// To make the user's keys.
    Key { user: Name },
    /// To remove the file.
    Remove { file: Name },
}

/// What an owner or a reader asks of a server.
#[derive(Drop)]
pub enum Request {
    /// Asks for the store's mode, epoch and check value.
    Hello,
    /// Asks for the numbers that a command needs.
    Ask {
        question: Question,
    },
    /// Asks where the list of a file of this length would be in the base layer.
    Cover {
        file: Name,
        length: u32,
        names: Names,
    },
    /// Changes the store: an update's spelling, made at this epoch, with the owner's tag.
    Update {
        epoch: u32,
        spelling: Octets,
        tag: [u8; 32],
    },
    /// Asks for the tokens that lead a user to a file's keys.
    Chain {
        user: Name,
        file: Name,
    },
    /// Asks for stored bytes of a file, as they are at this generation.
    Chunk {
        file: u32,
        generation: u32,
        start: u32,
        count: u32,
    },
    /// Asks for an entry of the public catalogue.
    Page {
        part: u8,
        number: u32,
    },
    /// Asks for the names in a file's list.
    List {
        file: Name,
    },
    /// Asks where the list of a file would be in the base layer, were the file replaced by one of
    /// this length.
    Replan {
        file: Name,
        length: u32,
    },
}
