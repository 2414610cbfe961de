//! Updates without the bytes of their files.
ghost use Rattle.std.specs.Prelude.{◌≡◌, ◌≤◌, length, Some};
ghost use Rattle.ov_base.specs.declared.limits.TheConstants.{MAX_FILE_BYTES, MAX_SET_WORDS};
ghost use Rattle.ov_record.specs.Briefs.{brief, plain_brief, text_of, text_size, with_text};
ghost use Rattle.ov_record.specs.Briefs.{BriefReplace, IsFitting};
ghost use Rattle.ov_record.specs.Updates.{sealed_update};

use crate::Update;
use ov_base::{Name, Octets, UserSet};
use ov_tokens::{Token, Tokens};

/// All of an update that the catalogue needs: of a new file's bytes their number alone.
#[derive(Drop)]
pub enum Brief<const W: usize> {
    /// A user joins.
    Enrol {
        name: Name,
    },
    /// A file of this many bytes is created for the users of a list, with the tokens of the edges
    /// into the list's node, where that is a new one, and with the tag of its plaintext.
    Create {
        name: Name,
        list: UserSet<W>,
        tokens: Tokens,
        tag: [u8; 32],
        length: u32,
    },
    /// A user joins the list of a file, with an access token where the user doesn't hold the file's
    /// base node yet.
    Grant {
        user: u32,
        file: u32,
        token: Option<Token>,
    },
    /// A user leaves the list of a file.
    Revoke {
        user: u32,
        file: u32,
    },
    /// A file is removed. Its number stays its own.
    Remove {
        file: u32,
    },
    /// A file gets this many new bytes, for the users who are in its list. The old one is removed,
    /// and the new one has its name and the next number. Tokens and tag are as those of a creation.
    Replace {
        name: Name,
        tokens: Tokens,
        tag: [u8; 32],
        length: u32,
    },
}

impl<const W: usize> Brief<W> {
    /// The update without the bytes of its file, and those bytes, where it creates or replaces one.
    pub fn of(update: Update<W>) -> (Brief<W>, Option<Octets>)
        requires { IsFitting (brief (sealed_update update)) }
        ensures brief { plain_brief result.0 ≡ brief (sealed_update update.entry) }
        ensures text { result.1 ≡ text_of (sealed_update update.entry) }
    {
        match update {
            Update::Enrol { name } => (Brief::Enrol { name }, None),
            Update::Create {
                name,
                list,
                tokens,
                tag,
                bytes,
            } => {
                let length = bytes.as_slice().len() as u32;
                let brief = Brief::Create {
                    name,
                    list,
                    tokens,
                    tag,
                    length,
                };
                (brief, Some(bytes))
            }
            Update::Grant { user, file, token } => (Brief::Grant { user, file, token }, None),
            Update::Revoke { user, file } => (Brief::Revoke { user, file }, None),
            Update::Remove { file } => (Brief::Remove { file }, None),
            Update::Replace {
                name,
                tokens,
                tag,
                bytes,
            } => Brief::of_replacement(name, tokens, tag, bytes),
        }
    }

    fn of_replacement(
        name: Name,
        tokens: Tokens,
        tag: [u8; 32],
        bytes: Octets,
    ) -> (Brief<W>, Option<Octets>)
        requires { length bytes ≤ MAX_FILE_BYTES }
        ensures brief { plain_brief result.0 ≡ BriefReplace name tokens tag (length bytes) }
        ensures text { result.1 ≡ Some bytes }
    {
        let length = bytes.as_slice().len() as u32;
        let replacement = Brief::Replace {
            name,
            tokens,
            tag,
            length,
        };
        (replacement, Some(bytes))
    }

    /// How many bytes the file has, where the update creates or replaces one.
    pub(crate) fn text_size(&self) -> u32
        ensures { result ≡ text_size (plain_brief self.now) }
    {
        match self {
            Brief::Create { length, .. } => *length,
            Brief::Replace { length, .. } => *length,
            _ => 0,
        }
    }

    /// The update with these bytes of its file, where it creates or replaces one.
    pub fn into_update(self, text: Octets) -> Update<W>
        ensures { sealed_update result ≡ with_text (plain_brief self.entry) text }
    {
        match self {
            Brief::Enrol { name } => Update::Enrol { name },
            Brief::Create {
                name,
                list,
                tokens,
                tag,
                length: _,
            } => Update::Create {
                name,
                list,
                tokens,
                tag,
                bytes: text,
            },
            Brief::Grant { user, file, token } => Update::Grant { user, file, token },
            Brief::Revoke { user, file } => Update::Revoke { user, file },
            Brief::Remove { file } => Update::Remove { file },
            Brief::Replace {
                name,
                tokens,
                tag,
                length: _,
            } => Update::Replace {
                name,
                tokens,
                tag,
                bytes: text,
            },
        }
    }

    /// The same update, with its set in a width that holds more users.
    pub fn widen<const V: usize>(self) -> Brief<V>
        requires { (W ≤ V) × (V ≤ MAX_SET_WORDS) }
        ensures { plain_brief result ≡ plain_brief self.entry }
    {
        match self {
            Brief::Enrol { name } => Brief::Enrol { name },
            Brief::Create {
                name,
                list,
                tokens,
                tag,
                length,
            } => Brief::Create {
                name,
                list: list.widen(),
                tokens,
                tag,
                length,
            },
            Brief::Grant { user, file, token } => Brief::Grant { user, file, token },
            Brief::Revoke { user, file } => Brief::Revoke { user, file },
            Brief::Remove { file } => Brief::Remove { file },
            Brief::Replace {
                name,
                tokens,
                tag,
                length,
            } => Brief::Replace {
                name,
                tokens,
                tag,
                length,
            },
        }
    }
}
