//! All names of a part of the catalogue, and the lists of all files.
ghost use Rattle.std.specs.Prelude.{◌≡◌, ◌++◌, Bool, IfErr, IfOk, OnOk};
ghost use Rattle.ov_protocol.specs.Serving.{Service};
ghost use Rattle.ov_listing.specs.Causes.{HasListingCause, IsSettled};
ghost use Rattle.ov_listing.specs.Questions.{AreListsAt, AreNamesAt, name_shown, named};
ghost use Rattle.ov_listing.specs.Reasons.{BlamesReply, IsNoneByRefusal};
ghost use Rattle.ov_listing.specs.Telling.{IsAloneIf, ToldOfOne};

use crate::asking::{list_of, shown_at};
use crate::part::Part;
use crate::shown::Shown;
use crate::{Listed, ListingFault};
use ov_base::{Memory, Name};
use ov_peer::Peer;
use std::alloc::Global;

/// Appends the name that is shown. A file that is gone has none.
fn put_shown(shown: Shown, names: &mut Vec<Name>) -> Result<(), Memory>
    ensures { OnOk result (names.new.items ≡ names.old.items ++ named (name_shown shown)) }
{
    match shown {
        Shown::Named { name } => names.push(name)?,
        Shown::Gone => {}
    }
    Ok(())
}

/// Asks for all names of a part of the catalogue, and goes on behind a file that is gone. A peer
/// with more entries than a store can have is asked for one too many, and no further.
pub fn names_of<P: Peer>(alloc: Global, peer: &mut P, part: Part) -> Result<Vec<Name>, ListingFault>
    ensures told { (alone : Bool) (v : Service) → IsAloneIf alone P.tells
        → P.tells.serves peer.old v
        → ToldOfOne alone v (P.tells.serves peer.new) (λ names. AreNamesAt part names.items)
        result }
    ensures settled { IsSettled result }
    ensures blames { IfErr result (BlamesReply P.tells peer.new) }
    ensures same { P.tells.borrow peer.new ≡ P.tells.borrow peer.old }
    ensures cause { HasListingCause (P.tells.faults peer.old) (P.tells.faults peer.new) result }
{
    let mut names = Vec::new(alloc);
    for number in 0..part.pages() {
        match shown_at(alloc, peer, part, number) {
            Ok(Some(shown)) => match put_shown(shown, &mut names) {
                Ok(()) => {}
                Err(_) => return Err(ListingFault::Memory),
            },
            Ok(None) => return Ok(names),
            Err(fault) => return Err(fault),
        }
    }
    Err(ListingFault::BadReply { at: 1 })
}

/// Asks for the list of each of these files; none where one of them isn't there any more.
pub fn lists_of<P: Peer>(
    alloc: Global,
    peer: &mut P,
    files: &[Name],
) -> Result<Option<Vec<Listed>>, ListingFault>
    ensures told { (alone : Bool) (v : Service) → IsAloneIf alone P.tells
        → P.tells.serves peer.old v
        → ToldOfOne alone v (P.tells.serves peer.new) (AreListsAt files.now) result }
    ensures settled { IsSettled result }
    ensures blames { IfErr result (BlamesReply P.tells peer.new) }
    ensures refused { IfOk result (IsNoneByRefusal P.tells peer.new) }
    ensures same { P.tells.borrow peer.new ≡ P.tells.borrow peer.old }
    ensures cause { HasListingCause (P.tells.faults peer.old) (P.tells.faults peer.new) result }
{
    let mut lists = Vec::new(alloc);
    for file in files {
        let names = match list_of(alloc, peer, file) {
            Ok(Some(names)) => names,
            Ok(None) => return Ok(None),
            Err(fault) => return Err(fault),
        };
        match lists.push(Listed {
            file: file.copy(),
            names,
        }) {
            Ok(()) => {}
            Err(_) => return Err(ListingFault::Memory),
        }
    }
    Ok(Some(lists))
}
