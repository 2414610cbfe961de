//! A server's answers.

use ov_base::{Mode, Names, Octets, Refusal, Users};
use ov_tokens::{Chain, Numbers};

/// What a reader or an owner has to know of a store first.
#[derive(Drop)]
pub struct Welcome {
    pub mode: Mode,
    pub epoch: u32,
    pub base_check: [u8; 32],
}

/// The numbers of the user, of the user's two roots, of the file and its base node, and whether an
/// access token is wanted.
#[derive(Drop)]
pub struct Known {
    pub epoch: u32,
    pub user: u32,
    pub base_root: u32,
    pub surface_root: u32,
    pub file: u32,
    pub node: u32,
    pub wants: bool,
}

/// The file's number to be, the set of its list, the base node of that set, whether this is a new
/// one, and the starts of the edges into it.
#[derive(Drop)]
pub struct Plan {
    pub epoch: u32,
    pub file: u32,
    pub list: Users,
    pub node: u32,
    pub fresh: bool,
    pub from: Numbers,
}

/// The file's number, length, generation and tag, and the chains to its keys.
#[derive(Drop)]
pub struct Chained {
    pub epoch: u32,
    pub file: u32,
    pub length: u32,
    pub generation: u32,
    pub tag: [u8; 32],
    pub base: Chain,
    pub surface: Option<Chain>,
}

/// What a server answers to a request.
#[derive(Drop)]
pub enum Answer {
    /// The answer to Hello.
    Welcome(Welcome),
    /// The answer to Ask.
    Known(Known),
    /// The answer to Cover and to Replan.
    Plan(Plan),
    /// An answer to Update: the epoch that it made.
    Accepted { epoch: u32 },
    /// The answer to Chain.
    Chained(Chained),
    /// An answer to Chunk: the bytes.
    Bytes { bytes: Octets },
    /// The answer to Page: the entry, where there is one.
    PageOf { entry: Option<Octets> },
    /// The command is refused.
    Refused { refusal: Refusal },
    /// An answer to Update: the server's epoch is another.
    Stale { epoch: u32 },
    /// An answer to Update: the owner's tag isn't right.
    BadTag,
    /// The request isn't in the grammar; `at` is the place of its first wrong byte.
    BadRequest { at: u32 },
    /// An answer to Chunk: the file's generation is another.
    Moved { generation: u32 },
    /// The server's disk failed.
    DeviceFault,
    /// The server's memory ran out.
    NoMemory,
    /// The answer to List: the names, by user number.
    Listed { names: Names },
}
