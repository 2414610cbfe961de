//! Reads of long files over peers that give fixed replies.

mod chunks;
mod long_vectors;
mod vectors;

use ov_base::{Key, Name, Octets};
use ov_client::*;
use ov_peer::FixedPeer;
use std::alloc::Global;
use std::test::Fail;
use vectors::*;

fn name(text: &[u8]) -> Result<Name, Fail> {
    Ok(Name::read(text).ok_or("a name")?)
}

/// The reader a, who is in the sets of both nodes of f2.
fn reader_a() -> Result<Client, Fail> {
    let base = Key { bytes: BASE_KEY_A };
    let surface = Key {
        bytes: SURFACE_KEY_A,
    };
    Ok(Client::new(name(b"a")?, 0, base, 0, surface))
}
