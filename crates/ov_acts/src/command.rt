//! The commands of an owner.
ghost use Rattle.std.specs.Prelude.{◌≡◌, ◌≤◌, ℕ, List, IfNone, IfOk, IfSome, length};
ghost use Rattle.ov_base.specs.Causes.{Rose};
ghost use Rattle.ov_base.specs.declared.limits.TheConstants.{MAX_FILE_BYTES};
ghost use Rattle.ov_client.specs.KeyLines.{key_line};
ghost use Rattle.ov_owner.specs.Changes.{HasChangeLimits, command_of};
ghost use Rattle.ov_protocol.specs.Serving.{Service};
ghost use Rattle.ov_script.specs.Lines.{reply_line};
ghost use Rattle.ov_acts.specs.Acts.{AsksFor, IsQuestion, Owns, Performs, Says, admitted};
ghost use Rattle.ov_acts.specs.Acts.{list_line, update_line};
ghost use Rattle.ov_acts.specs.Causes.{StopsFor};
ghost use Rattle.ov_acts.specs.Files.{HasListLimits, IsOwners};
ghost use Rattle.ov_acts.specs.Machine.{CommandsAsMachine, OwnsAsMachine};

use crate::job::Act;
use crate::stop::{Stop, stop_of_owner};
use ov_base::{Key, Memory, Name, Names, Octets};
use ov_client::Client;
use ov_owner::{Change, Owner, OwnerFault, Welcome};
use ov_peer::Peer;
use ov_script::{Reply, line};
use ov_tokens::{Master, check_value};
use std::alloc::Global;

/// The line of a reply.
fn line_of_reply(alloc: Global, reply: &Reply) -> Result<Octets, Memory>
    ensures { IfOk result (λ bytes. bytes ≡ reply_line reply.now) }
{
    let mut bytes = Vec::new(alloc);
    line(reply, &mut bytes)?;
    Ok(Octets::from_vec(bytes))
}

/// The line on an update.
fn line_on_update(alloc: Global, updated: Result<u32, OwnerFault>) -> Result<Octets, Stop>
    ensures { Says update_line updated result }
{
    match updated {
        Ok(epoch) => match line_of_reply(alloc, &Reply::Accepted(epoch)) {
            Ok(line) => Ok(line),
            Err(Memory) => Err(Stop::Memory),
        },
        Err(fault) => Err(stop_of_owner(fault)),
    }
}

/// The line on a file's list.
fn line_on_list(
    alloc: Global,
    file: &Name,
    listed: Result<Names, OwnerFault>,
) -> Result<Octets, Stop>
    ensures { Says (list_line file.now) listed result }
{
    match listed {
        Ok(names) => {
            let reply = Reply::List {
                file: file.copy(),
                names,
            };
            match line_of_reply(alloc, &reply) {
                Ok(line) => Ok(line),
                Err(Memory) => Err(Stop::Memory),
            }
        }
        Err(fault) => Err(stop_of_owner(fault)),
    }
}

/// The line of a user's keys.
fn line_of_client(alloc: Global, client: &Client) -> Result<Octets, Memory>
    ensures { IfOk result (λ line. line ≡ key_line client.now) }
{
    let mut bytes = Vec::new(alloc);
    client.line(&mut bytes)?;
    Ok(Octets::from_vec(bytes))
}

/// The line of the keys of a user whose reader was made.
fn line_on_client(alloc: Global, made: Result<Client, OwnerFault>) -> Result<Octets, Stop>
    ensures { Says key_line made result }
{
    match made {
        Ok(client) => match line_of_client(alloc, &client) {
            Ok(line) => Ok(line),
            Err(Memory) => Err(Stop::Memory),
        },
        Err(fault) => Err(stop_of_owner(fault)),
    }
}

/// Whether the store that welcomes is one of this base master.
fn admitted(base: &Key, greeting: Result<Welcome, OwnerFault>) -> Result<(), Stop>
    ensures { result ≡ admitted base.now.bytes greeting }
{
    match greeting {
        Ok(welcome) => {
            if welcome.base_check == check_value(&Master::new(base)) {
                Ok(())
            } else {
                Err(Stop::OtherKeys)
            }
        }
        Err(fault) => Err(stop_of_owner(fault)),
    }
}

/// The change that an act asks for, where it asks for one. These bytes are stored.
fn change_of<'a>(act: &'a Act, bytes: &'a [u8]) -> Option<Change<'a>>
    requires owners { IsOwners act.now }
    requires list { HasListLimits act.now }
    requires file { length bytes.now ≤ MAX_FILE_BYTES }
    ensures change { IfSome result (λ change. AsksFor act.now bytes.now (command_of change)) }
    ensures limits { IfSome result HasChangeLimits }
    ensures question { IfNone result (IsQuestion act.now) }
{
    match act {
        Act::Enrol { user } => Some(Change::Enrol { user }),
        Act::Create { file, list } => Some(Change::Create { file, list, bytes }),
        Act::Replace { file } => Some(Change::Replace { file, bytes }),
        Act::Grant { user, file } => Some(Change::Grant { user, file }),
        Act::Revoke { user, file } => Some(Change::Revoke { user, file }),
        Act::Remove { file } => Some(Change::Remove { file }),
        Act::List { file: _ } | Act::Key { user: _ } => None,
        Act::Read { file: _ } | Act::Check => unreachable!(),
    }
}

/// Asks what changes nothing, and gives the line on it.
fn question<P: Peer>(alloc: Global, owner: &Owner, act: &Act, peer: &mut P) -> Result<Octets, Stop>
    requires question { IsQuestion act.now }
    ensures performs { (bytes : List ℕ) → Performs P.tells owner.now act.now bytes
        peer.old peer.new result }
    ensures told { (bytes : List ℕ) (v : Service) → P.tells.serves peer.old v
        → CommandsAsMachine owner.now act.now bytes v (P.tells.serves peer.new) result }
    ensures cause { StopsFor ⊥ (Rose (P.tells.faults peer.old) (P.tells.faults peer.new)) ⊥ ⊥
        result }
{
    match act {
        Act::List { file } => line_on_list(alloc, file, owner.list(alloc, peer, file)),
        Act::Key { user } => line_on_client(alloc, owner.client(alloc, peer, user)),
        Act::Enrol { user: _ }
        | Act::Create { file: _, list: _ }
        | Act::Replace { file: _ }
        | Act::Grant { user: _, file: _ }
        | Act::Revoke { user: _, file: _ }
        | Act::Remove { file: _ }
        | Act::Read { file: _ }
        | Act::Check => unreachable!(),
    }
}

/// Does what an owner can, and gives the line on it.
pub fn command<P: Peer>(
    alloc: Global,
    owner: &Owner,
    act: &Act,
    bytes: &[u8],
    peer: &mut P,
) -> Result<Octets, Stop>
    requires owners { IsOwners act.now }
    requires list { HasListLimits act.now }
    requires file { length bytes.now ≤ MAX_FILE_BYTES }
    ensures performs { Performs P.tells owner.now act.now bytes.now peer.old peer.new result }
    ensures told { (v : Service) → P.tells.serves peer.old v → v.surface ≡ owner.now.surface
        → CommandsAsMachine owner.now act.now bytes.now v (P.tells.serves peer.new) result }
    ensures cause { StopsFor ⊥ (Rose (P.tells.faults peer.old) (P.tells.faults peer.new)) ⊥ ⊥
        result }
{
    match change_of(act, bytes) {
        Some(change) => line_on_update(alloc, owner.change(alloc, peer, &change)),
        None => question(alloc, owner, act, peer),
    }
}

/// Asks the server for the check value of its store, and goes on where that is the base master's.
pub fn greet_and_command<P: Peer>(
    alloc: Global,
    owner: &Owner,
    base: &Key,
    act: &Act,
    bytes: &[u8],
    peer: &mut P,
) -> Result<Octets, Stop>
    requires act { IsOwners act.now × HasListLimits act.now }
    requires file { length bytes.now ≤ MAX_FILE_BYTES }
    requires base { owner.now.base ≡ base.now.bytes }
    ensures owns { Owns P.tells owner.now act.now bytes.now peer.old peer.new result }
    ensures told { (v : Service) → P.tells.serves peer.old v → v.surface ≡ owner.now.surface
        → OwnsAsMachine owner.now act.now bytes.now v (P.tells.serves peer.new) result }
    ensures cause { StopsFor ⊥ (Rose (P.tells.faults peer.old) (P.tells.faults peer.new)) ⊥ ⊥
        result }
{
    admitted(base, owner.hello(alloc, peer))?;
    command(alloc, owner, act, bytes, peer)
}
