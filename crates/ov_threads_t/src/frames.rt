//! Frames by which users are enrolled, and the server that they are asked of.
ghost use Rattle.std.specs.Prelude.{◌<◌};

use ov_base::{Key, Mode};
use ov_disk::MemDisk;
use ov_host::DiskServer;
use ov_server::Server;
use ov_store::Store;
use ov_tokens::SurfaceMaster;
use std::alloc::Global;
use std::test::Fail;

/// The kind bytes of replies: what a question comes to, an update that was accepted, and one that
/// was made for an earlier epoch.
pub const KNOWN: u8 = 0x82;

pub const ACCEPTED: u8 = 0x84;

pub const STALE: u8 = 0x89;

/// The reply to whoever enrols a user again.
pub const TAKEN: &[u8] = b"\x88\x01";

/// The surface master.
fn surface() -> Key {
    Key { bytes: [7; 32] }
}

/// What makes the owner's tags.
pub fn tags() -> SurfaceMaster {
    SurfaceMaster::new(&surface())
}

/// A server over an empty store in memory.
pub fn server(alloc: Global) -> Result<DiskServer<MemDisk>, Fail> {
    server_on(alloc, MemDisk::new(alloc))
}

/// The same over a disk that fails at the first call behind those of the store's beginning.
pub fn failing_server(alloc: Global) -> Result<DiskServer<MemDisk>, Fail> {
    let begun = server(alloc)?.close();
    let mut disk = MemDisk::new(alloc);
    disk.fail_at(begun.calls())?;
    server_on(alloc, disk)
}

fn server_on(alloc: Global, disk: MemDisk) -> Result<DiskServer<MemDisk>, Fail> {
    let surface = surface();
    match Store::begin(alloc, disk, surface, [17; 32], Mode::Full) {
        Ok(store) => Ok(DiskServer::new(Server::new(store, surface))),
        Err(_) => Err(Fail::from("no store")),
    }
}

/// The name of this number, of three bytes.
pub fn name_of(letter: u8, number: u8) -> [u8; 3]
    requires { number < 100 }
{
    [letter, b'0' + number / 10, b'0' + number % 10]
}

/// The question what the enrolment of this user comes to.
pub fn question(name: [u8; 3]) -> [u8; 6] {
    [2, 1, 3, name[0], name[1], name[2]]
}

/// The enrolment of this user at an epoch, with the owner's tag.
pub fn enrolment(tags: &SurfaceMaster, epoch: u32, name: [u8; 3]) -> [u8; 42] {
    let epoch = epoch.to_be_bytes();
    let spelling = [1, 3, name[0], name[1], name[2]];
    let mut request = [4; 42];
    request[1..5].copy_from_slice(&epoch);
    request[5..10].copy_from_slice(&spelling);
    request[10..].copy_from_slice(&tags.owner_mac(&epoch, &spelling));
    request
}

/// The epoch behind the kind byte of a reply.
pub fn epoch_in(reply: &[u8]) -> Option<u32> {
    match reply {
        [_, a, b, c, d, ..] => Some(u32::from_be_bytes([*a, *b, *c, *d])),
        _ => None,
    }
}
