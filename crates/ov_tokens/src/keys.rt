//! Keys and values that are derived from a key.

ghost use Rattle.std.specs.Prelude.{◌≡◌};
ghost use Rattle.ov_tokens.specs.Keys.{access_key_of, check_value_of, tag_key_of, update_key_of};

use crate::Master;
use crate::message::tagged;
use ov_base::Key;
use ov_keyed::{MacKey, mac};
use sha2::{Digest, Sha256};

/// The access key of a base node, from its derivation key: the SHA-256 digest of its 32 bytes.
pub fn access_key(key: &Key) -> Key
    ensures { result.bytes ≡ access_key_of key.now.bytes }
{
    Key {
        bytes: Sha256::digest(&key.bytes),
    }
}

/// The key under which a file's contents are tagged, from the access key of its base node.
pub fn tag_key(access: &Key, file: u32) -> Key
    ensures { result.bytes ≡ tag_key_of access.now.bytes file }
{
    Key {
        bytes: mac(&access.bytes, &tagged(b'T', file), b""),
    }
}

/// The key under which the owner tags updates, from the surface master.
pub fn update_key(surface: &Master) -> MacKey
    ensures { result ≡ update_key_of surface.now.bytes }
{
    MacKey::new(&surface.mac(&tagged(b'U', 0)))
}

/// The value by which a store knows its master again.
pub fn check_value(master: &Master) -> [u8; 32]
    ensures { result ≡ check_value_of master.now.bytes }
{
    master.mac(&tagged(b'C', 0))
}
