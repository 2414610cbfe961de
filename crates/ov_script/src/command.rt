//! The commands of a script.
use ov_base::{Name, Names, Octets};

/// A command of a script.
#[derive(Drop)]
pub enum Command {
    /// `enrol USER`: the user is added.
    Enrol {
        user: Name,
    },
    /// `create FILE LIST LENGTH`, LENGTH bytes: the file is made, for the users of the list.
    Create {
        file: Name,
        list: Names,
        bytes: Octets,
    },
    /// `grant USER FILE`: the user joins the file's list.
    Grant {
        user: Name,
        file: Name,
    },
    /// `revoke USER FILE`: the user leaves the file's list.
    Revoke {
        user: Name,
        file: Name,
    },
    /// `remove FILE`: the file is gone, and its name is free again.
    Remove {
        file: Name,
    },
    /// `replace FILE LENGTH`, LENGTH bytes: the file is gone, and one of its name and list has the
    /// new bytes.
    Replace {
        file: Name,
        bytes: Octets,
    },
    /// `read USER FILE`: the user asks for the file's bytes.
    Read {
        user: Name,
        file: Name,
    },
    /// `list FILE`: the names in the file's list are asked for.
    List {
        file: Name,
    },
    /// `epoch`: the epoch is asked for.
    Epoch,
}
