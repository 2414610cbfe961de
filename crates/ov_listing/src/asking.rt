//! The three questions of a listing.
ghost use Rattle.std.specs.Prelude.{◌≡◌, Bool, IfErr, IfNone, IfOk, IfSome, List, ℕ, ◌++◌};
ghost use Rattle.ov_fields.specs.Spelling.{name_field};
ghost use Rattle.ov_protocol.specs.Serving.{Service};
ghost use Rattle.ov_listing.specs.Causes.{HasListingCause, IsSettled};
ghost use Rattle.ov_listing.specs.Questions.{HasNoName, ShownBy, ShownIn, listed_in, part_number};
ghost use Rattle.ov_listing.specs.Questions.{welcome_in};
ghost use Rattle.ov_listing.specs.Questions.{IsListAt, IsShownAt, IsWelcomeAt};
ghost use Rattle.ov_listing.specs.Reasons.{BlamesReply, Greets, IsNoneByRefusal, IsOnPage};
ghost use Rattle.ov_listing.specs.Telling.{IsAloneIf, Told};

use crate::ListingFault;
use crate::fault::fault_of;
use crate::part::Part;
use crate::shown::Shown;
use ov_base::{Name, Names, Refusal};
use ov_peer::{Peer, exchange};
use ov_wire::{Answer, Request, Welcome};
use std::alloc::Global;

/// What a Welcome says, or why there is none.
fn welcome_in(answer: Answer) -> Result<Welcome, ListingFault>
    ensures { result ≡ welcome_in answer }
{
    match answer {
        Answer::Welcome(welcome) => Ok(welcome),
        Answer::NoMemory => Err(ListingFault::Memory),
        _ => Err(ListingFault::BadReply { at: 0 }),
    }
}

/// Asks for the store's mode, its epoch, and the check value of its base master.
pub fn ask_welcome<P: Peer>(alloc: Global, peer: &mut P) -> Result<Welcome, ListingFault>
    ensures told { (alone : Bool) (v : Service) → IsAloneIf alone P.tells
        → P.tells.serves peer.old v
        → Told alone v (P.tells.serves peer.new) IsWelcomeAt result }
    ensures settled { IsSettled result }
    ensures blames { IfErr result (BlamesReply P.tells peer.new) }
    ensures greets { IfOk result (Greets P.tells peer.old peer.new) }
    ensures same { P.tells.borrow peer.new ≡ P.tells.borrow peer.old }
    ensures cause { HasListingCause (P.tells.faults peer.old) (P.tells.faults peer.new) result }
{
    match exchange(alloc, peer, &Request::Hello) {
        Ok(answer) => welcome_in(answer),
        Err(fault) => Err(fault_of(fault)),
    }
}

/// The name with which an entry begins, behind its length.
fn name_in(entry: &[u8]) -> Option<Name>
    ensures some { IfSome result (λ name. (rest : List ℕ) × (entry.now ≡ name_field name ++ rest)) }
    ensures none { IfNone result (HasNoName entry.now) }
{
    match entry {
        [count, rest @ ..] => {
            let (word, _) = rest.split_at_checked(*count as usize)?;
            Name::read(word)
        }
        [] => None,
    }
}

/// What an entry shows, or none where it shows nothing. The entry of a file that is gone is the
/// byte 0, which is no name's length.
fn shown_by(entry: &[u8]) -> Option<Shown>
    ensures { ShownBy entry.now result }
{
    if entry == b"\0".as_slice() {
        return Some(Shown::Gone);
    }
    match name_in(entry) {
        Some(name) => Some(Shown::Named { name }),
        None => None,
    }
}

/// What a page shows, or none where there is no such page.
fn shown_in(answer: Answer) -> Result<Option<Shown>, ListingFault>
    ensures { ShownIn answer result }
{
    match answer {
        Answer::PageOf { entry: Some(entry) } => match shown_by(entry.as_slice()) {
            Some(shown) => Ok(Some(shown)),
            None => Err(ListingFault::BadReply { at: 2 }),
        },
        Answer::PageOf { entry: None } => Ok(None),
        Answer::NoMemory => Err(ListingFault::Memory),
        _ => Err(ListingFault::BadReply { at: 0 }),
    }
}

/// Asks what has this number in a part of the catalogue.
pub fn shown_at<P: Peer>(
    alloc: Global,
    peer: &mut P,
    part: Part,
    number: u32,
) -> Result<Option<Shown>, ListingFault>
    ensures told { (alone : Bool) (v : Service) → IsAloneIf alone P.tells
        → P.tells.serves peer.old v
        → Told alone v (P.tells.serves peer.new) (IsShownAt part number) result }
    ensures settled { IsSettled result }
    ensures blames { IfErr result (BlamesReply P.tells peer.new) }
    ensures page { IfOk result (IsOnPage P.tells (part_number part) number peer.new) }
    ensures same { P.tells.borrow peer.new ≡ P.tells.borrow peer.old }
    ensures cause { HasListingCause (P.tells.faults peer.old) (P.tells.faults peer.new) result }
{
    let request = Request::Page {
        part: part.number(),
        number,
    };
    match exchange(alloc, peer, &request) {
        Ok(answer) => shown_in(answer),
        Err(fault) => Err(fault_of(fault)),
    }
}

/// The names that are listed, or none where there is no such file: one that had a page may have
/// been removed meanwhile.
fn listed_in(answer: Answer) -> Result<Option<Names>, ListingFault>
    ensures { result ≡ listed_in answer }
{
    match answer {
        Answer::Listed { names } => Ok(Some(names)),
        Answer::Refused {
            refusal: Refusal::NoFile,
        } => Ok(None),
        Answer::NoMemory => Err(ListingFault::Memory),
        _ => Err(ListingFault::BadReply { at: 0 }),
    }
}

/// Asks for the names in the list of a file, in the order of the users; none where there is no such
/// file.
pub fn list_of<P: Peer>(
    alloc: Global,
    peer: &mut P,
    file: &Name,
) -> Result<Option<Names>, ListingFault>
    ensures told { (alone : Bool) (v : Service) → IsAloneIf alone P.tells
        → P.tells.serves peer.old v
        → Told alone v (P.tells.serves peer.new) (IsListAt file.now) result }
    ensures settled { IsSettled result }
    ensures blames { IfErr result (BlamesReply P.tells peer.new) }
    ensures refused { IfOk result (IsNoneByRefusal P.tells peer.new) }
    ensures same { P.tells.borrow peer.new ≡ P.tells.borrow peer.old }
    ensures cause { HasListingCause (P.tells.faults peer.old) (P.tells.faults peer.new) result }
{
    match exchange(alloc, peer, &Request::List { file: file.copy() }) {
        Ok(answer) => listed_in(answer),
        Err(fault) => Err(fault_of(fault)),
    }
}
