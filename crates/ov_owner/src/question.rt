//! Questions of an owner.
ghost use Rattle.std.specs.Prelude.{◌≡◌};
ghost use Rattle.ov_wire.specs.declared.request.Request.TheVariants.{Hello, List as ListNames};
ghost use Rattle.ov_wire.specs.Requests.{HasRequestForm};
ghost use Rattle.ov_protocol.specs.Serving.{Service};
ghost use Rattle.ov_owner.specs.Causes.{HasOwnerCause};
ghost use Rattle.ov_owner.specs.Completeness.{IsCompleteCall, SaysList, SaysWelcome};
ghost use Rattle.ov_owner.specs.Questions.{AsksOnce, IsListOf, IsWelcomeOf, names_in, welcome_in};

use crate::sending::fault_of;
use crate::{Owner, OwnerFault};
use ov_base::{Name, Names};
use ov_peer::{Peer, exchange};
use ov_wire::{Answer, Request, Welcome};
use std::alloc::Global;

/// What a Welcome says, or why the call ends.
fn welcome_in(answer: Answer) -> Result<Welcome, OwnerFault>
    ensures { result ≡ welcome_in answer }
{
    match answer {
        Answer::Welcome(welcome) => Ok(welcome),
        Answer::NoMemory => Err(OwnerFault::Memory),
        _ => Err(OwnerFault::BadReply { at: 0 }),
    }
}

/// The names that are listed, or why the call ends.
fn names_in(answer: Answer) -> Result<Names, OwnerFault>
    ensures { result ≡ names_in answer }
{
    match answer {
        Answer::Listed { names } => Ok(names),
        Answer::Refused { refusal } => Err(OwnerFault::Refused(refusal)),
        Answer::NoMemory => Err(OwnerFault::Memory),
        _ => Err(OwnerFault::BadReply { at: 0 }),
    }
}

impl Owner {
    /// Asks for the store's mode, its epoch, and the check value of its base master.
    pub fn hello<P: Peer>(&self, alloc: Global, peer: &mut P) -> Result<Welcome, OwnerFault>
        ensures asks { AsksOnce P.tells peer.old peer.new Hello welcome_in result }
        ensures form { HasRequestForm Hello }
        ensures told { (v : Service) → P.tells.serves peer.old v
            → IsWelcomeOf v (P.tells.serves peer.new) result }
        ensures complete { IsCompleteCall P.tells self.now peer.old peer.new SaysWelcome result }
        ensures same { P.tells.borrow peer.new ≡ P.tells.borrow peer.old }
        ensures cause { HasOwnerCause (P.tells.faults peer.old) (P.tells.faults peer.new) result }
    {
        match exchange(alloc, peer, &Request::Hello) {
            Ok(answer) => welcome_in(answer),
            Err(fault) => Err(fault_of(fault)),
        }
    }

    /// Asks for the names in the list of a file, in the order of the users.
    pub fn list<P: Peer>(
        &self,
        alloc: Global,
        peer: &mut P,
        file: &Name,
    ) -> Result<Names, OwnerFault>
        ensures asks { AsksOnce P.tells peer.old peer.new (ListNames file.now) names_in result }
        ensures form { HasRequestForm (ListNames file.now) }
        ensures told { (v : Service) → P.tells.serves peer.old v
            → IsListOf v (P.tells.serves peer.new) file.now result }
        ensures complete { IsCompleteCall P.tells self.now peer.old peer.new
            (SaysList self.now file.now) result }
        ensures same { P.tells.borrow peer.new ≡ P.tells.borrow peer.old }
        ensures cause { HasOwnerCause (P.tells.faults peer.old) (P.tells.faults peer.new) result }
    {
        match exchange(alloc, peer, &Request::List { file: file.copy() }) {
            Ok(answer) => names_in(answer),
            Err(fault) => Err(fault_of(fault)),
        }
    }
}
