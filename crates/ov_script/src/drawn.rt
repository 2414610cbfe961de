//! What the words of a drawn command say.
ghost use Rattle.std.specs.Prelude.{◌≡◌};

/// How many users a workload enrols, before its first drawn command.
pub const WORKLOAD_USERS: u32 = 8;

/// How many drawn commands a workload has at most.
pub const MAX_WORKLOAD: u32 = 20_000;

/// What a drawn command does.
#[derive(Clone, Copy)]
pub enum Kind {
    Creates,
    Grants,
    Revokes,
    Reads,
    Lists,
}

/// What the words of a drawn command say.
#[derive(Clone, Copy)]
pub struct Drawn {
    /// What the command does, by the first word.
    pub kind: Kind,
    /// The second word: a user, or by its bits the users of a list.
    pub who: u32,
    /// The third word: a file, or a length.
    pub what: u32,
}
