//! Calls of owners and readers over a traced peer. They are those of its parts, and say in addition
//! that the sink stays lent as it was: so what is put goes to the caller's own sink.
ghost use Rattle.std.specs.Prelude.{◌≡◌, ◌+◌};
ghost use Rattle.ov_wire.specs.Requests.{HasRequestForm};
ghost use Rattle.ov_wire.specs.declared.request.Question.TheVariants.{Key as AsksKey};
ghost use Rattle.ov_wire.specs.declared.request.Request.TheVariants.{Ask, Hello};
ghost use Rattle.ov_wire.specs.declared.request.Request.TheVariants.{List as ListNames};
ghost use Rattle.ov_peer.specs.Traced.{traced_tells};
ghost use Rattle.ov_client.specs.Causes.{HasClientCause};
ghost use Rattle.ov_client.specs.Reads.{Reads};
ghost use Rattle.ov_owner.specs.Calls.{Runs};
ghost use Rattle.ov_owner.specs.Causes.{HasOwnerCause};
ghost use Rattle.ov_owner.specs.Changes.{HasChangeLimits, errand_of};
ghost use Rattle.ov_owner.specs.Clients.{reader_in};
ghost use Rattle.ov_owner.specs.Questions.{AsksOnce, names_in, welcome_in};
ghost use Rattle.ov_machine.specs.Seats.{HasFoundCause, ReadsBy};

use crate::replying::Found;
use ov_base::{Name, Names, Octets};
use ov_client::{Client, ClientFault};
use ov_io::Sink;
use ov_owner::{Change, Owner, OwnerFault, Welcome};
use ov_peer::{Peer, Traced};
use std::alloc::Global;

/// Makes a change.
pub fn change<P: Peer + Drop, T: Sink + Drop>(
    owner: &Owner,
    alloc: Global,
    peer: &mut Traced<P, T>,
    change: &Change<'_>,
) -> Result<u32, OwnerFault>
    requires { HasChangeLimits change.now }
    ensures runs { Runs (traced_tells P.tells T.tells)
        owner.now.surface (errand_of owner.now.base change.now) peer.old peer.new result }
    ensures lent { T.tells.borrow peer.new.sink ≡ T.tells.borrow peer.old.sink }
    ensures same { P.tells.borrow peer.new.peer ≡ P.tells.borrow peer.old.peer }
    ensures cause { HasOwnerCause (P.tells.faults peer.old.peer + T.tells.faults peer.old.sink)
        (P.tells.faults peer.new.peer + T.tells.faults peer.new.sink) result }
{
    owner.change(alloc, peer, change)
}

/// Asks for the epoch.
pub fn hello<P: Peer + Drop, T: Sink + Drop>(
    owner: &Owner,
    alloc: Global,
    peer: &mut Traced<P, T>,
) -> Result<Welcome, OwnerFault>
    ensures asks { AsksOnce (traced_tells P.tells T.tells)
        peer.old peer.new Hello welcome_in result }
    ensures form { HasRequestForm Hello }
    ensures lent { T.tells.borrow peer.new.sink ≡ T.tells.borrow peer.old.sink }
    ensures same { P.tells.borrow peer.new.peer ≡ P.tells.borrow peer.old.peer }
    ensures cause { HasOwnerCause (P.tells.faults peer.old.peer + T.tells.faults peer.old.sink)
        (P.tells.faults peer.new.peer + T.tells.faults peer.new.sink) result }
{
    owner.hello(alloc, peer)
}

/// Asks for the names in a file's list.
pub fn list<P: Peer + Drop, T: Sink + Drop>(
    owner: &Owner,
    alloc: Global,
    peer: &mut Traced<P, T>,
    file: &Name,
) -> Result<Names, OwnerFault>
    ensures asks { AsksOnce (traced_tells P.tells T.tells)
        peer.old peer.new (ListNames file.now) names_in result }
    ensures form { HasRequestForm (ListNames file.now) }
    ensures lent { T.tells.borrow peer.new.sink ≡ T.tells.borrow peer.old.sink }
    ensures same { P.tells.borrow peer.new.peer ≡ P.tells.borrow peer.old.peer }
    ensures cause { HasOwnerCause (P.tells.faults peer.old.peer + T.tells.faults peer.old.sink)
        (P.tells.faults peer.new.peer + T.tells.faults peer.new.sink) result }
{
    owner.list(alloc, peer, file)
}

/// Makes the reader of a user.
fn client<P: Peer + Drop, T: Sink + Drop>(
    owner: &Owner,
    alloc: Global,
    peer: &mut Traced<P, T>,
    user: &Name,
) -> Result<Client, OwnerFault>
    ensures asks { AsksOnce (traced_tells P.tells T.tells)
        peer.old peer.new (Ask (AsksKey user.now)) (reader_in owner.now user.now) result }
    ensures form { HasRequestForm (Ask (AsksKey user.now)) }
    ensures lent { T.tells.borrow peer.new.sink ≡ T.tells.borrow peer.old.sink }
    ensures same { P.tells.borrow peer.new.peer ≡ P.tells.borrow peer.old.peer }
    ensures cause { HasOwnerCause (P.tells.faults peer.old.peer + T.tells.faults peer.old.sink)
        (P.tells.faults peer.new.peer + T.tells.faults peer.new.sink) result }
{
    owner.client(alloc, peer, user)
}

/// Reads a file with the keys of a reader.
fn fetch<P: Peer + Drop, T: Sink + Drop>(
    client: Client,
    alloc: Global,
    peer: &mut Traced<P, T>,
    file: &Name,
) -> Result<Octets, ClientFault>
    ensures talk { Reads (traced_tells P.tells T.tells) peer.old peer.new client file.now result }
    ensures lent { T.tells.borrow peer.new.sink ≡ T.tells.borrow peer.old.sink }
    ensures same { P.tells.borrow peer.new.peer ≡ P.tells.borrow peer.old.peer }
    ensures cause { HasClientCause (P.tells.faults peer.old.peer + T.tells.faults peer.old.sink)
        (P.tells.faults peer.new.peer + T.tells.faults peer.new.sink) result }
{
    client.fetch(alloc, peer, file)
}

/// Makes the reader of a user, and reads a file with its keys.
pub fn read<P: Peer + Drop, T: Sink + Drop>(
    owner: &Owner,
    alloc: Global,
    peer: &mut Traced<P, T>,
    user: &Name,
    file: &Name,
) -> Found
    ensures reads { ReadsBy (traced_tells P.tells T.tells)
        owner.now peer.old peer.new user.now file.now result }
    ensures form { HasRequestForm (Ask (AsksKey user.now)) }
    ensures lent { T.tells.borrow peer.new.sink ≡ T.tells.borrow peer.old.sink }
    ensures same { P.tells.borrow peer.new.peer ≡ P.tells.borrow peer.old.peer }
    ensures cause { HasFoundCause (P.tells.faults peer.old.peer + T.tells.faults peer.old.sink)
        (P.tells.faults peer.new.peer + T.tells.faults peer.new.sink) result }
{
    match client(owner, alloc, peer, user) {
        Ok(client) => Found::Read(fetch(client, alloc, peer, file)),
        Err(fault) => Found::Unread(fault),
    }
}
