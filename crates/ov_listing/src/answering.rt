//! The text that answers a question.
ghost use Rattle.std.specs.Prelude.{◌≡◌, Bool, IfErr, IfOk, OnOk, Some};
ghost use Rattle.ov_base.specs.NameLists.{is_among};
ghost use Rattle.ov_protocol.specs.Serving.{Service};
ghost use Rattle.ov_listing.specs.Answers.{IsTextAt, files_answer, given_text};
ghost use Rattle.ov_listing.specs.Causes.{HasListingCause, IsSettled};
ghost use Rattle.ov_listing.specs.Reasons.{BlamesChanges, BlamesReply};
ghost use Rattle.ov_listing.specs.Telling.{IsAloneIf, Told};
ghost use Rattle.ov_listing.specs.Texts.{epoch_text, users_text};
ghost use Rattle.ov_peer.specs.Alone.{IsAlone};

use crate::asking::ask_welcome;
use crate::texts::{put_epoch, put_files, put_files_of, put_users};
use crate::trying::ask_listing;
use crate::{Listing, ListingFault, Wanted};
use ov_base::{Memory, Name, Octets};
use ov_peer::Peer;
use ov_wire::Welcome;
use std::alloc::Global;

/// What is asked of a store.
#[derive(Drop)]
pub enum Question {
    /// The store's mode and its epoch.
    Epoch,
    /// The users of the store.
    Users,
    /// The files of the store with their lists; or the files that list this user.
    Files { user: Option<Name> },
}

/// The text on mode and epoch.
fn epoch_answer(alloc: Global, welcome: &Welcome) -> Result<Octets, Memory>
    ensures { IfOk result (λ text. text ≡ epoch_text welcome.now.mode welcome.now.epoch) }
{
    let mut text = Vec::new(alloc);
    put_epoch(welcome.mode, welcome.epoch, &mut text)?;
    Ok(Octets::from_vec(text))
}

/// The text on users.
fn users_answer(alloc: Global, users: &[Name]) -> Result<Octets, Memory>
    ensures { IfOk result (λ text. text ≡ users_text users.now) }
{
    let mut text = Vec::new(alloc);
    put_users(users, &mut text)?;
    Ok(Octets::from_vec(text))
}

/// Whether the name is among these.
fn is_among(name: &Name, names: &[Name]) -> bool
    ensures { result ≡ is_among name.now names.now }
{
    names.iter().any(|other| name == other)
}

/// The text on files, or on those that list a user; none where that isn't one.
fn files_answer(
    alloc: Global,
    user: &Option<Name>,
    listing: Listing,
) -> Result<Option<Octets>, Memory>
    ensures { IfOk result (λ text. text
        ≡ files_answer user.now listing.users.items listing.files.items) }
{
    let mut text = Vec::new(alloc);
    match user {
        None => put_files(listing.files, &mut text)?,
        Some(user) => {
            if !is_among(user, &listing.users) {
                return Ok(None);
            }
            put_files_of(user, &listing.files, &mut text)?;
        }
    }
    Ok(Some(Octets::from_vec(text)))
}

/// A text that was made, or that memory was refused for it.
fn given(text: Result<Octets, Memory>) -> Result<Option<Octets>, ListingFault>
    ensures { result ≡ given_text text }
{
    match text {
        Ok(text) => Ok(Some(text)),
        Err(Memory) => Err(ListingFault::Memory),
    }
}

/// Asks what the question needs, and gives the text that answers it; or none, where it names a user
/// who isn't one of the store.
pub fn answer<P: Peer>(
    alloc: Global,
    peer: &mut P,
    question: &Question,
) -> Result<Option<Octets>, ListingFault>
    ensures told { (alone : Bool) (v : Service) → IsAloneIf alone P.tells
        → P.tells.serves peer.old v
        → Told alone v (P.tells.serves peer.new) (IsTextAt question.now) result }
    ensures once { IsAlone P.tells → (v : Service) → P.tells.serves peer.old v
        → IsSettled result }
    ensures blames { IfErr result (BlamesReply P.tells peer.new) }
    ensures changes { IfErr result (BlamesChanges P.tells peer.old peer.new) }
    ensures same { P.tells.borrow peer.new ≡ P.tells.borrow peer.old }
    ensures cause { HasListingCause (P.tells.faults peer.old) (P.tells.faults peer.new) result }
{
    match question {
        Question::Epoch => match ask_welcome(alloc, peer) {
            Ok(welcome) => given(epoch_answer(alloc, &welcome)),
            Err(fault) => Err(fault),
        },
        Question::Users => match ask_listing(alloc, peer, Wanted::Users) {
            Ok(listing) => given(users_answer(alloc, &listing.users)),
            Err(fault) => Err(fault),
        },
        Question::Files { user } => match ask_listing(alloc, peer, Wanted::Files) {
            Ok(listing) => match files_answer(alloc, user, listing) {
                Ok(text) => Ok(text),
                Err(Memory) => Err(ListingFault::Memory),
            },
            Err(fault) => Err(fault),
        },
    }
}
