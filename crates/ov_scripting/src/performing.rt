//! One command of a script, by the owner or by the reader that it makes.
ghost use Rattle.std.specs.Prelude.{◌≡◌, IfNone, IfSome};
ghost use Rattle.ov_script.specs.declared.command.Command.TheVariants.{Epoch};
ghost use Rattle.ov_script.specs.declared.command.Command.TheVariants.{List as ListNames, Read};
ghost use Rattle.ov_owner.specs.Changes.{HasChangeLimits, command_of};
ghost use Rattle.ov_scripting.specs.Performing.{Does, HasCause, IsQuestion, IsWritten};
ghost use Rattle.ov_scripting.specs.Performing.{with_epoch};

use crate::replying::{change_reply, epoch_in, fault_reply, names_reply, read_reply};
use ov_acts::Stop;
use ov_base::Name;
use ov_owner::{Change, Owner};
use ov_peer::Peer;
use ov_script::{Command, Reply};
use std::alloc::Global;

/// The change that a command asks for, where it asks for one.
fn change_of(command: &Command) -> Option<Change<'_>>
    requires { IsWritten command.now }
    ensures change { IfSome result (λ change. command_of change ≡ command.now) }
    ensures limits { IfSome result HasChangeLimits }
    ensures question { IfNone result (IsQuestion command.now) }
{
    match command {
        Command::Enrol { user } => Some(Change::Enrol { user }),
        Command::Create { file, list, bytes } => Some(Change::Create {
            file,
            list,
            bytes: bytes.as_slice(),
        }),
        Command::Replace { file, bytes } => Some(Change::Replace {
            file,
            bytes: bytes.as_slice(),
        }),
        Command::Grant { user, file } => Some(Change::Grant { user, file }),
        Command::Revoke { user, file } => Some(Change::Revoke { user, file }),
        Command::Remove { file } => Some(Change::Remove { file }),
        Command::Read { user: _, file: _ } | Command::List { file: _ } | Command::Epoch => None,
    }
}

/// Makes a change.
fn change<P: Peer>(
    alloc: Global,
    owner: &Owner,
    change: &Change<'_>,
    peer: &mut P,
) -> Result<Reply, Stop>
    requires { HasChangeLimits change.now }
    ensures does { Does P.tells owner.now (command_of change.now) peer.old peer.new result }
    ensures cause { HasCause P.tells peer.old peer.new result }
{
    change_reply(owner.change(alloc, peer, change))
}

/// Makes the reader of a user, and reads a file with its keys.
fn read<P: Peer>(
    alloc: Global,
    owner: &Owner,
    user: Name,
    file: Name,
    peer: &mut P,
) -> Result<Reply, Stop>
    ensures does { Does P.tells owner.now (Read user file) peer.old peer.new result }
    ensures cause { HasCause P.tells peer.old peer.new result }
{
    match owner.client(alloc, peer, &user) {
        Ok(client) => {
            let found = client.fetch(alloc, peer, &file);
            read_reply(user, file, found)
        }
        Err(fault) => fault_reply(fault),
    }
}

/// Asks for the names in a file's list.
fn list<P: Peer>(alloc: Global, owner: &Owner, file: Name, peer: &mut P) -> Result<Reply, Stop>
    ensures does { Does P.tells owner.now (ListNames file) peer.old peer.new result }
    ensures cause { HasCause P.tells peer.old peer.new result }
{
    let told = owner.list(alloc, peer, &file);
    names_reply(file, told)
}

/// Asks for the epoch.
pub fn epoch<P: Peer>(alloc: Global, owner: &Owner, peer: &mut P) -> Result<u32, Stop>
    ensures does { Does P.tells owner.now Epoch peer.old peer.new (with_epoch result) }
    ensures cause { HasCause P.tells peer.old peer.new result }
{
    epoch_in(owner.hello(alloc, peer))
}

/// Answers a command that asks for no change.
fn question<P: Peer>(
    alloc: Global,
    owner: &Owner,
    command: Command,
    peer: &mut P,
) -> Result<Reply, Stop>
    requires { IsQuestion command }
    ensures does { Does P.tells owner.now command peer.old peer.new result }
    ensures cause { HasCause P.tells peer.old peer.new result }
{
    match command {
        Command::Read { user, file } => read(alloc, owner, user, file, peer),
        Command::List { file } => list(alloc, owner, file, peer),
        Command::Epoch => match epoch(alloc, owner, peer) {
            Ok(epoch) => Ok(Reply::Epoch(epoch)),
            Err(stop) => Err(stop),
        },
        Command::Enrol { user: _ }
        | Command::Create {
            file: _,
            list: _,
            bytes: _,
        }
        | Command::Grant { user: _, file: _ }
        | Command::Revoke { user: _, file: _ }
        | Command::Remove { file: _ }
        | Command::Replace { file: _, bytes: _ } => unreachable!(),
    }
}

/// Does what a command asks for, and gives its reply.
pub fn perform<P: Peer>(
    alloc: Global,
    owner: &Owner,
    command: Command,
    peer: &mut P,
) -> Result<Reply, Stop>
    requires { IsWritten command }
    ensures does { Does P.tells owner.now command peer.old peer.new result }
    ensures cause { HasCause P.tells peer.old peer.new result }
{
    match change_of(&command) {
        Some(made) => change(alloc, owner, &made, peer),
        None => question(alloc, owner, command, peer),
    }
}
