//! Changes that are prepared and not yet made.
ghost use Rattle.std.specs.Prelude.{◌≡◌};

use crate::files::FileEntry;
use ov_base::{Name, UserSet};
use ov_base_layer::Grant;
use ov_graph::Cover;
use ov_tokens::Tokens;

/// A node that a layer is to get: its set, its cover, and the tokens of the cover's edges.
#[derive(Drop)]
pub struct NewNode<const W: usize> {
    pub set: UserSet<W>,
    pub cover: Cover,
    pub tokens: Tokens,
}

/// A file whose stored bytes are to be new: its number, how many they are, and the surfaces under
/// which they are and are to be. A new file has none yet, and its bytes come with its update.
#[derive(Clone, Copy, Debug, PartialEq, Eq)]
pub struct Rewrite {
    pub file: u32,
    pub length: u32,
    pub old: Option<u32>,
    pub new: Option<u32>,
}

/// What a catalogue is to have one more of, which file it is to have no more, or both.
#[derive(Drop)]
pub enum Growth {
    /// A user.
    User(Name),
    /// A file, which gets its surface by its rewrite.
    File(FileEntry),
    /// An access token.
    Access(Grant),
    /// The file of this number goes.
    Removal(u32),
    /// The file of this number goes, and this one comes, which gets its surface by its rewrite.
    Replacement(u32, FileEntry),
    /// Nothing.
    Nothing,
}

/// All that an update makes: what grows or goes, the nodes that each layer gets, the rewrites by
/// file number, and the bytes of all files afterwards.
#[derive(Drop)]
pub struct Change<const W: usize> {
    pub(crate) growth: Growth,
    pub(crate) base: Option<NewNode<W>>,
    pub(crate) surface: Vec<NewNode<W>>,
    pub(crate) rewrites: Vec<Rewrite>,
    pub(crate) size: u64,
}

impl<const W: usize> Change<W> {
    /// The files whose stored bytes are to be new, by number, each once.
    pub fn rewrites(&self) -> &[Rewrite]
        ensures { result.now ≡ self.now.rewrites.items }
    {
        self.rewrites.as_slice()
    }
}
