//! One ask and one update, and again after Stale.
ghost use Rattle.std.specs.Prelude.{◌≡◌, ℕ, List, IfOk};
ghost use Rattle.ov_record.specs.Spelling.{IsWithinLimits};
ghost use Rattle.ov_record.specs.Updates.{sealed_update};
ghost use Rattle.ov_record.specs.Forms.{second_form};
ghost use Rattle.ov_owner.specs.Calls.{Runs};
ghost use Rattle.ov_owner.specs.Causes.{HasOwnerCause};
ghost use Rattle.ov_owner.specs.Changes.{HasChangeLimits, errand_of};
ghost use Rattle.ov_owner.specs.Helpers.{IsAsked};

use crate::OwnerFault;
use crate::change::{Change, first_request};
use crate::limits::MAX_TRIES;
use crate::sealing::{Sealed, seal};
use crate::sending::{Sent, fault_of, send};
use ov_peer::{Peer, exchange};
use ov_tokens::{Master, SurfaceMaster};
use std::alloc::Global;

/// Asks a change's first request, and seals the update of the answer. No epoch may come that is
/// lower than `least`, which was told before.
fn ask<P: Peer>(
    alloc: Global,
    peer: &mut P,
    base: &Master,
    change: &Change<'_>,
    least: u32,
) -> Result<Sealed, OwnerFault>
    requires { HasChangeLimits change.now }
    ensures asked { (surface : List ℕ) → IsAsked P.tells surface
        (errand_of base.now.bytes change.now) least peer.old peer.new result }
    ensures limits { IfOk result (λ made. IsWithinLimits second_form (sealed_update made.update)) }
    ensures same { P.tells.borrow peer.new ≡ P.tells.borrow peer.old }
    ensures cause { HasOwnerCause (P.tells.faults peer.old) (P.tells.faults peer.new) result }
{
    let request = first_request(alloc, change)?;
    let answer = match exchange(alloc, peer, &request) {
        Ok(answer) => answer,
        Err(fault) => return Err(fault_of(fault)),
    };
    let sealed = seal(alloc, base, change, answer)?;
    // The epoch follows the kind byte at once.
    if sealed.epoch < least {
        return Err(OwnerFault::BadReply { at: 1 });
    }
    Ok(sealed)
}

/// Makes a change: asks, and sends the update at the epoch that was told; and again where others
/// were faster.
pub fn settle<P: Peer>(
    alloc: Global,
    peer: &mut P,
    base: &Master,
    surface: &SurfaceMaster,
    change: &Change<'_>,
) -> Result<u32, OwnerFault>
    requires { HasChangeLimits change.now }
    ensures runs { Runs P.tells surface.now.bytes (errand_of base.now.bytes change.now)
        peer.old peer.new result }
    ensures same { P.tells.borrow peer.new ≡ P.tells.borrow peer.old }
    ensures cause { HasOwnerCause (P.tells.faults peer.old) (P.tells.faults peer.new) result }
{
    let mut epochs = [0; MAX_TRIES];
    let mut least = 0;
    for i in 0..MAX_TRIES {
        let sealed = ask(alloc, peer, base, change, least)?;
        let made_at = sealed.epoch;
        match send(alloc, peer, surface, sealed)? {
            Sent::Accepted(epoch) => return Ok(epoch),
            Sent::Stale(epoch) => least = epoch,
        }
        epochs[i] = made_at;
    }
    Err(OwnerFault::Unsettled { epochs })
}
