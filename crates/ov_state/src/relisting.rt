//! Changes of one file's list, and which of them the list refuses.
ghost use Rattle.std.specs.Prelude.{◌≡◌, ◌<◌, ◌*◌, IfErr, IfOk, Some};
ghost use Rattle.ov_base.specs.Sets.{with, without};
ghost use Rattle.ov_history.specs.Asking.{refusal_at};
ghost use Rattle.ov_state.specs.Relistings.{update_by, IsDecided, IsListing, IsMissing};

use crate::state::State;
use ov_base::{Refusal, UserSet};
use ov_graph::Graph;
use ov_tokens::{Base, Surface};

/// What an update does with a user and the list of a file.
#[derive(Clone, Copy)]
pub enum Verb {
    /// The user joins the list.
    Grant,
    /// The user leaves the list.
    Revoke,
}

/// A change of one file's list: the file, its base node, its list after the change, and the
/// holders of the node before it and after it.
#[derive(Drop)]
pub struct Relisting<const W: usize> {
    pub file: u32,
    pub node: u32,
    pub list: UserSet<W>,
    pub before: UserSet<W>,
    pub after: UserSet<W>,
}

impl<const W: usize> Relisting<W> {
    /// The change by which the user is granted the file, and holds its base node from then on.
    pub fn granted(self, user: u32) -> Self
        requires { user < 64 * W }
        ensures { result ≡ record self.entry {
          list = with self.entry.list user;
          after = with self.entry.after user;
        } }
    {
        let Relisting {
            file,
            node,
            list,
            before,
            after,
        } = self;
        Relisting {
            file,
            node,
            list: list.with(user),
            before,
            after: after.with(user),
        }
    }

    /// The change by which the file is revoked from the user, who holds its base node as before.
    pub fn revoked(self, user: u32) -> Self
        requires { user < 64 * W }
        ensures { result ≡ record self.entry { list = without self.entry.list user } }
    {
        let Relisting {
            file,
            node,
            list,
            before,
            after,
        } = self;
        Relisting {
            file,
            node,
            list: list.without(user),
            before,
            after,
        }
    }
}

impl<B: Graph<Base, W>, S: Graph<Surface, W>, const W: usize> State<B, S, W> {
    /// A file, where it and a user are there, with its list and its holders as they are.
    fn listing(&self, user: u32, file: u32) -> Result<Relisting<W>, Refusal>
        ensures ok { IfOk result (IsListing self.now.catalogue user file) }
        ensures wide { IfOk result (λ _. user < 64 * W) }
        ensures err { IfErr result (IsMissing self.now.catalogue user file) }
    {
        self.known();
        if !self.is_user(user) {
            return Err(Refusal::NoUser);
        }
        if !self.is_file(file) {
            return Err(Refusal::NoFile);
        }
        let entry = self.entry(file);
        let before = self.holders(entry.node);
        let list = self.list_or(entry, &before);
        let after = before.copy();
        Ok(Relisting {
            file,
            node: entry.node,
            list,
            before,
            after,
        })
    }

    /// What a grant or a revocation makes of the file's list, or why it is refused before nodes and
    /// epochs are looked at.
    pub(crate) fn decided(&self, user: u32, file: u32, verb: Verb) -> Result<Relisting<W>, Refusal>
        ensures ok { IfOk result (IsDecided self.now.catalogue (update_by verb user file)
            user file) }
        ensures wide { IfOk result (λ _. user < 64 * W) }
        ensures err { IfErr result
            (λ why. refusal_at self.now.catalogue (update_by verb user file) ≡ Some why) }
    {
        self.known();
        let listing = self.listing(user, file)?;
        match (verb, listing.list.contains(user)) {
            (Verb::Grant, true) => Err(Refusal::Listed),
            (Verb::Grant, false) => Ok(listing.granted(user)),
            (Verb::Revoke, true) => Ok(listing.revoked(user)),
            (Verb::Revoke, false) => Err(Refusal::NotListed),
        }
    }
}
