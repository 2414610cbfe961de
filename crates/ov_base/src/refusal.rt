//! Why a command is refused.
ghost use Rattle.std.specs.Prelude.{◌≡◌, ◌≤◌, ◌↔◌, IsSome, IfSome};
ghost use Rattle.ov_base.specs.Refusals.{refusal_number, refusal_word};

/// Why the access-matrix machine refuses a command. Of several that apply it answers that with
/// the lowest number, and nothing changes.
#[derive(Clone, Copy, Debug, PartialEq, Eq)]
pub enum Refusal {
    /// The user that was to be enrolled, or the file that was to be created, is there.
    Taken,
    /// A named user isn't enrolled.
    NoUser,
    /// The named file isn't there.
    NoFile,
    /// The reader isn't in the file's list.
    NoPath,
    /// The user that was to be granted the file is in its list.
    Listed,
    /// The user whose access was to be revoked isn't in the file's list.
    NotListed,
    /// There are as many users as a store holds.
    UsersFull,
    /// There are as many files as a store holds.
    FilesFull,
    /// The files together would have more bytes than a store holds.
    BytesFull,
    /// A layer would have more nodes than a store holds.
    NodesFull,
    /// The epoch is at its last value.
    Spent,
}

impl Refusal {
    /// The number of a refusal, from 1 to 11.
    pub fn number(&self) -> u8
        ensures { result ≡ refusal_number self.now }
    {
        *self as u8 + 1
    }

    /// The refusal of this number.
    pub fn from_number(number: u8) -> Option<Refusal>
        ensures range { IsSome result ↔ ((1 ≤ number) × (number ≤ 11)) }
        ensures number { IfSome result (λ refusal. refusal_number refusal ≡ number) }
    {
        match number {
            1 => Some(Refusal::Taken),
            2 => Some(Refusal::NoUser),
            3 => Some(Refusal::NoFile),
            4 => Some(Refusal::NoPath),
            5 => Some(Refusal::Listed),
            6 => Some(Refusal::NotListed),
            7 => Some(Refusal::UsersFull),
            8 => Some(Refusal::FilesFull),
            9 => Some(Refusal::BytesFull),
            10 => Some(Refusal::NodesFull),
            11 => Some(Refusal::Spent),
            _ => None,
        }
    }

    /// The word of a refusal in a reply line.
    pub fn word(&self) -> &str
        ensures { result.now ≡ refusal_word self.now }
    {
        match self {
            Refusal::Taken => "Taken",
            Refusal::NoUser => "NoUser",
            Refusal::NoFile => "NoFile",
            Refusal::NoPath => "NoPath",
            Refusal::Listed => "Listed",
            Refusal::NotListed => "NotListed",
            Refusal::UsersFull => "UsersFull",
            Refusal::FilesFull => "FilesFull",
            Refusal::BytesFull => "BytesFull",
            Refusal::NodesFull => "NodesFull",
            Refusal::Spent => "Spent",
        }
    }
}
