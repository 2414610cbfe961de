//! What an act asks for, as far as texts tell acts apart.

use ov_acts::Act;
use ov_base::Name;

/// What an act asks for.
#[derive(Clone, Copy, Debug, PartialEq, Eq)]
pub enum Asks {
    /// A new user.
    User,
    /// A new file, whose bytes are sent.
    File,
    /// New bytes of a file, which are sent.
    Replacement,
    /// Another list of a file.
    List,
    /// That a file goes.
    Removal,
    /// What the store has, with both masters.
    Answer,
    /// What the store shows to whoever asks.
    Names,
    /// The bytes of a file, with a user's keys.
    Bytes,
    /// What the commands of a script do.
    Script,
    /// Nothing of a server.
    Nothing,
}

/// What the act asks for.
pub fn asks_of(act: &Act) -> Asks {
    match act {
        Act::Enrol { user: _ } => Asks::User,
        Act::Create { file: _, list: _ } => Asks::File,
        Act::Replace { file: _ } => Asks::Replacement,
        Act::Grant { user: _, file: _ } | Act::Revoke { user: _, file: _ } => Asks::List,
        Act::Remove { file: _ } => Asks::Removal,
        Act::List { file: _ } | Act::Key { user: _ } => Asks::Answer,
        Act::Read { file: _ } => Asks::Bytes,
        Act::Check => Asks::Nothing,
    }
}

/// Whether the act stores the bytes of a file.
pub fn stores(act: &Act) -> bool {
    matches!(
        act,
        Act::Create { file: _, list: _ } | Act::Replace { file: _ }
    )
}

/// The text of a name.
pub fn text_of(name: &Name) -> &str {
    std::str::from_utf8(name.as_bytes()).unwrap_or("")
}

/// The file that the act names, or nothing.
pub fn file_of(act: &Act) -> &str {
    match act {
        Act::Enrol { user: _ } | Act::Key { user: _ } | Act::Check => "",
        Act::Grant { user: _, file }
        | Act::Revoke { user: _, file }
        | Act::Remove { file }
        | Act::Create { file, list: _ }
        | Act::Replace { file }
        | Act::List { file }
        | Act::Read { file } => text_of(file),
    }
}
