//! A key whose two blocks are hashed once.

ghost use Rattle.std.specs.Prelude.{◌≡◌, ◌+◌, ◌^◌, ◌<◌, ◌++◌, length};
ghost use Rattle.ov_keyed.specs.Hmac.{hmac};

use crate::pieces::Pieces;
use std::marker::Model;

/// A key under which many messages are hashed: its model is the key's bytes. The two blocks of the
/// key are hashed once, so that the tag of a short message costs half of what [`mac`](crate::mac)
/// takes for it.
#[derive(Drop)]
pub struct MacKey {
    bytes: [u8; 32],
    empty: Pieces,
}

impl Model for MacKey {
    ghost use Rattle.std.specs.Prelude.{ℕ, List, []};
    ghost use Rattle.ov_keyed.specs.Holding.{Holds};

    ghost Value = { List ℕ };

    ghost view = { λ k. k.bytes };

    ghost invariant = { λ k. Holds k.empty k.bytes [] };
}

impl MacKey {
    /// A key of these bytes, with its blocks hashed (RFC 2104, section 2, steps 1, 2 and 5). It
    /// takes no memory.
    pub fn new(key: &[u8; 32]) -> MacKey
        ensures { result ≡ key.now }
    {
        MacKey {
            bytes: *key,
            empty: Pieces::new(key),
        }
    }

    /// The key's bytes.
    pub fn bytes(&self) -> &[u8; 32]
        ensures { result.now ≡ self.now }
    {
        &self.bytes
    }

    /// The HMAC-SHA256 tag of `first` followed by `second`, as [`mac`](crate::mac) gives it.
    ///
    /// The condition keeps the message far below the 2^64 bits for which SHA-256 is defined.
    pub fn mac(&self, first: &[u8], second: &[u8]) -> [u8; 32]
        requires { length first.now + length second.now < 2 ^ 32 }
        ensures { result ≡ hmac self.now (first.now ++ second.now) }
    {
        let mut held = self.empty.copy();
        held.add(first);
        held.add(second);
        held.finish()
    }
}
