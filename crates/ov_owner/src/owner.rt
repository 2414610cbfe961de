//! The owner, who holds both masters and changes the store.
ghost use Rattle.std.specs.Prelude.{◌≡◌};
ghost use Rattle.ov_protocol.specs.Serving.{Service};
ghost use Rattle.ov_owner.specs.Alone.{MakesOneOrNone};
ghost use Rattle.ov_owner.specs.Calls.{Runs};
ghost use Rattle.ov_owner.specs.Causes.{HasOwnerCause};
ghost use Rattle.ov_owner.specs.Completeness.{IsCompleteCall, SaysUpdate};
ghost use Rattle.ov_owner.specs.Steps.{IsOwnersReply};
ghost use Rattle.ov_owner.specs.Changes.{HasChangeLimits, command_of, errand_of};

use crate::OwnerFault;
use crate::change::Change;
use crate::settling::settle;
use ov_base::Key;
use ov_peer::Peer;
use ov_tokens::{Master, SurfaceMaster};
use std::alloc::Global;
use std::marker::Model;

/// The owner of a store: both masters.
#[derive(Drop)]
pub struct Owner {
    pub(crate) base: Master,
    pub(crate) surface: SurfaceMaster,
}

impl Model for Owner {
    ghost use Rattle.ov_history.specs.Masters.{Masters};

    ghost Value = { Masters };

    ghost view = { λ o. record { base = o.base.bytes; surface = o.surface.bytes } };
}

impl Owner {
    /// The owner with these masters. It takes no memory.
    pub fn new(base: Key, surface: Key) -> Owner
        ensures { result ≡ record { base = base.bytes; surface = surface.bytes } }
    {
        Owner {
            base: Master::new(&base),
            surface: SurfaceMaster::new(&surface),
        }
    }

    /// Makes a change. Gives the new epoch.
    ///
    /// However it ends, out of memory too, a peer that nobody else updates serves what it served
    /// before or that with this one change, whatever history that is (`alone`). Over such a peer,
    /// whose history is right under the owner's masters, it ends as the machine does, unless it is
    /// cut off (`complete`).
    pub fn change<P: Peer>(
        &self,
        alloc: Global,
        peer: &mut P,
        change: &Change<'_>,
    ) -> Result<u32, OwnerFault>
        requires { HasChangeLimits change.now }
        ensures runs { Runs P.tells self.now.surface (errand_of self.now.base change.now)
            peer.old peer.new result }
        ensures told { (v : Service) → P.tells.serves peer.old v → v.surface ≡ self.now.surface
            → IsOwnersReply self.now (command_of change.now) v (P.tells.serves peer.new) result }
        ensures alone { MakesOneOrNone P.tells (errand_of self.now.base change.now)
            peer.old peer.new }
        ensures complete { IsCompleteCall P.tells self.now peer.old peer.new
            (SaysUpdate self.now (command_of change.now)) result }
        ensures same { P.tells.borrow peer.new ≡ P.tells.borrow peer.old }
        ensures cause { HasOwnerCause (P.tells.faults peer.old) (P.tells.faults peer.new) result }
    {
        settle(alloc, peer, &self.base, &self.surface, change)
    }
}
