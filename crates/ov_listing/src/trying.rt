//! A listing of one epoch.
ghost use Rattle.std.specs.Prelude.{◌≡◌, Bool, IfErr, IfOk};
ghost use Rattle.ov_protocol.specs.Serving.{Service};
ghost use Rattle.ov_listing.specs.Causes.{HasListingCause, IsOneTry, IsSettled};
ghost use Rattle.ov_listing.specs.Listings.{IsListingAt};
ghost use Rattle.ov_listing.specs.Questions.{AreFilesAt, IsTryAt};
ghost use Rattle.ov_listing.specs.Reasons.{BlamesChanges, BlamesReply, IsNoneByChange};
ghost use Rattle.ov_listing.specs.Reasons.{IsNoneByRefusal};
ghost use Rattle.ov_listing.specs.Telling.{IsAloneIf, Told, ToldOfOne};
ghost use Rattle.ov_peer.specs.Alone.{IsAlone};

use crate::asking::ask_welcome;
use crate::gathering::{lists_of, names_of};
use crate::part::Part;
use crate::{Listed, Listing, ListingFault, Wanted};
use ov_peer::Peer;
use std::alloc::Global;

/// How often a listing begins.
const TRIES: usize = 9;

/// Asks for the files that are wanted, with their lists; none where a file was removed before its
/// list was asked for.
fn files_of<P: Peer>(
    alloc: Global,
    peer: &mut P,
    wanted: Wanted,
) -> Result<Option<Vec<Listed>>, ListingFault>
    ensures told { (alone : Bool) (v : Service) → IsAloneIf alone P.tells
        → P.tells.serves peer.old v
        → ToldOfOne alone v (P.tells.serves peer.new) (AreFilesAt wanted) result }
    ensures settled { IsSettled result }
    ensures blames { IfErr result (BlamesReply P.tells peer.new) }
    ensures refused { IfOk result (IsNoneByRefusal P.tells peer.new) }
    ensures same { P.tells.borrow peer.new ≡ P.tells.borrow peer.old }
    ensures cause { HasListingCause (P.tells.faults peer.old) (P.tells.faults peer.new) result }
{
    match wanted {
        Wanted::Users => Ok(Some(Vec::new(alloc))),
        Wanted::Files => match names_of(alloc, peer, Part::Files) {
            Ok(names) => lists_of(alloc, peer, &names),
            Err(fault) => Err(fault),
        },
    }
}

/// One try: a listing, or none where the store changed meanwhile. It did where a list is refused, or
/// where the epoch at the end is another.
fn try_once<P: Peer>(
    alloc: Global,
    peer: &mut P,
    wanted: Wanted,
) -> Result<Option<Listing>, ListingFault>
    ensures told { (alone : Bool) (v : Service) → IsAloneIf alone P.tells
        → P.tells.serves peer.old v
        → Told alone v (P.tells.serves peer.new) (IsTryAt wanted) result }
    ensures once { IsAlone P.tells → (v : Service) → P.tells.serves peer.old v
        → IsOneTry result }
    ensures settled { IsSettled result }
    ensures blames { IfErr result (BlamesReply P.tells peer.new) }
    ensures changed { IfOk result (IsNoneByChange P.tells peer.old peer.new) }
    ensures same { P.tells.borrow peer.new ≡ P.tells.borrow peer.old }
    ensures cause { HasListingCause (P.tells.faults peer.old) (P.tells.faults peer.new) result }
{
    let before = match ask_welcome(alloc, peer) {
        Ok(welcome) => welcome,
        Err(fault) => return Err(fault),
    };
    let users = match names_of(alloc, peer, Part::Users) {
        Ok(users) => users,
        Err(fault) => return Err(fault),
    };
    let files = match files_of(alloc, peer, wanted) {
        Ok(Some(files)) => files,
        Ok(None) => return Ok(None),
        Err(fault) => return Err(fault),
    };
    let after = match ask_welcome(alloc, peer) {
        Ok(welcome) => welcome,
        Err(fault) => return Err(fault),
    };
    if after.epoch == before.epoch {
        Ok(Some(Listing {
            mode: after.mode,
            epoch: after.epoch,
            users,
            files,
        }))
    } else {
        Ok(None)
    }
}

/// Asks for all that is wanted of a store, as it is at one epoch. Where the store changes meanwhile
/// it begins again, nine times in all.
pub fn ask_listing<P: Peer>(
    alloc: Global,
    peer: &mut P,
    wanted: Wanted,
) -> Result<Listing, ListingFault>
    ensures told { (alone : Bool) (v : Service) → IsAloneIf alone P.tells
        → P.tells.serves peer.old v
        → Told alone v (P.tells.serves peer.new) (IsListingAt wanted) result }
    ensures once { IsAlone P.tells → (v : Service) → P.tells.serves peer.old v
        → IsSettled result }
    ensures blames { IfErr result (BlamesReply P.tells peer.new) }
    ensures changes { IfErr result (BlamesChanges P.tells peer.old peer.new) }
    ensures same { P.tells.borrow peer.new ≡ P.tells.borrow peer.old }
    ensures cause { HasListingCause (P.tells.faults peer.old) (P.tells.faults peer.new) result }
{
    for _ in 0..TRIES {
        match try_once(alloc, peer, wanted) {
            Ok(Some(listing)) => return Ok(listing),
            Ok(None) => {}
            Err(fault) => return Err(fault),
        }
    }
    Err(ListingFault::Unsettled)
}
