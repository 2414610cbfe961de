//! Rows of the premises under which calls are answered: that nobody else updates what is served, that
//! it is a store of the masters, and that a reader's line is right for it.
ghost use Rattle.std.specs.Prelude.{◌≡◌, ⊤, IfOk, IfSome, Some};
ghost use Rattle.ov_acts.specs.Completeness.{HasFilesFor, HasReadersLine, IsAnswered};
ghost use Rattle.ov_acts.specs.Files.{HasListLimits};
ghost use Rattle.ov_owner.specs.Alone.{IsLeftAlone};
ghost use Rattle.ov_peer.specs.Alone.{IsAlone};
ghost use Rattle.ov_protocol_t.specs.Premises.{IsNewStoreAt, StoresAreServed, masters, no_updates};
ghost use Rattle.ov_protocol_t.specs.Premises.{one_user};

use ov_acts::{Job, act};
use ov_base::{Key, Memory, Mode, Name};
use ov_client::Client;
use ov_disk::{Disk, MemDisk};
use ov_io::{Sink, Source};
use ov_peer::Peer;
use ov_server::{LocalPeer, Server};
use ov_store::Store;
use ov_tokens::{Base, Layer, Master, Surface, check_value};
use std::alloc::Global;

/// Nobody else updates what a server in this process serves, whether an ask of it is answered or
/// fails; and where its disk tells its bytes it serves just the history for which its store stands.
pub fn a_server_in_this_process_is_alone<D: Disk>()
    ensures asked { IsAlone ⟦<LocalPeer<D> as Peer>⟧.tells }
    ensures failed { IsLeftAlone ⟦<LocalPeer<D> as Peer>⟧.tells }
    ensures serves { StoresAreServed D.tells ⟦<LocalPeer<D> as Peer>⟧.tells }
{}

/// A new store on a disk in memory serves just the history without updates, as its masters seal it.
pub fn a_new_store_is_one_of_its_masters(
    alloc: Global,
    base: &Key,
    surface: Key,
    mode: Mode,
) -> Option<LocalPeer<MemDisk>>
    ensures { IfSome result (IsNewStoreAt ⟦<LocalPeer<MemDisk> as Peer>⟧.tells
        (masters base.now.bytes surface.bytes) mode) }
{
    a_server_in_this_process_is_alone::<MemDisk>();
    let disk = MemDisk::new(alloc);
    let master = Master::new(base);
    let base_check = check_value(&master);
    match Store::begin(alloc, disk, surface, base_check, mode) {
        Ok(store) => {
            let server = Server::new(store, surface);
            Some(LocalPeer::new(server))
        }
        Err(_) => None,
    }
}

/// An act over such a store whose files are right is answered: it needs no other premise.
pub fn an_act_over_a_new_store_is_answered<K: Source, B: Source, O: Sink>(
    alloc: Global,
    base: &Key,
    surface: Key,
    mode: Mode,
    job: &Job,
    keys: &mut K,
    body: &mut B,
    out: &mut O,
) -> Option<u8>
    requires list { HasListLimits job.now.act }
    ensures { IfSome result (λ status. HasFilesFor job.now.act (K.tells.left keys.old)
        (B.tells.left body.old) (masters base.now.bytes surface.bytes) (no_updates mode)
        → IsAnswered ⊤ status) }
{
    a_server_in_this_process_is_alone::<MemDisk>();
    let mut peer = a_new_store_is_one_of_its_masters(alloc, base, surface, mode)?;
    Some(act(alloc, job, keys, body, out, &mut peer))
}

/// The line of the keys of a store's only user is all that a read by this user needs.
pub fn the_line_of_the_only_user_is_right(
    alloc: Global,
    base: &Key,
    surface: &Key,
    mode: Mode,
) -> Result<Vec<u8>, Memory>
    ensures { IfOk result (λ line. HasReadersLine (Some line.items)
        (masters base.now.bytes surface.now.bytes) (one_user mode)) }
{
    let _ = mode;
    let Some(name) = Name::read(b"a") else {
        return Err(Memory);
    };
    let base_master = Master::new(base);
    let base_key = Base::key_of(&base_master, 0);
    let surface_master = Master::new(surface);
    let surface_key = Surface::key_of(&surface_master, 0);
    let client = Client::new(name, 0, base_key, 0, surface_key);
    let mut line = Vec::new(alloc);
    client.line(&mut line)?;
    Ok(line)
}
