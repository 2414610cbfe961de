//! The surface master of whoever makes or checks the owner's tags.

ghost use Rattle.std.specs.Prelude.{◌≡◌, ◌+◌, ◌^◌, ◌<◌, ◌++◌, length};
ghost use Rattle.ov_keyed.specs.Hmac.{hmac};
ghost use Rattle.ov_tokens.specs.Keys.{update_key_of};

use crate::{Master, update_key};
use ov_base::Key;
use ov_keyed::MacKey;
use std::marker::Model;

/// The surface master, and the key of the owner's tags of updates, which is derived once.
#[derive(Drop)]
pub struct SurfaceMaster {
    master: Master,
    updates: MacKey,
}

impl Model for SurfaceMaster {
    ghost use Rattle.std.specs.Prelude.{◌≡◌};
    ghost use Rattle.ov_base.specs.declared.key.Key.{Key};
    ghost use Rattle.ov_tokens.specs.Keys.{update_key_of};

    ghost Value = { Key };

    ghost view = { λ s. s.master };

    ghost invariant = { λ s. s.updates ≡ update_key_of s.master.bytes };
}

impl SurfaceMaster {
    /// The surface master of this key. It takes no memory.
    pub fn new(key: &Key) -> SurfaceMaster
        ensures { result ≡ key.now }
    {
        let master = Master::new(key);
        let updates = update_key(&master);
        SurfaceMaster { master, updates }
    }

    /// The master alone.
    pub fn master(&self) -> &Master
        ensures { result.now ≡ self.now }
    {
        &self.master
    }

    /// The HMAC-SHA256 tag of `epoch` and then `spelling` under the key of the owner's tags.
    ///
    /// The condition keeps the message far below the 2^64 bits for which SHA-256 is defined.
    pub fn owner_mac(&self, epoch: &[u8; 4], spelling: &[u8]) -> [u8; 32]
        requires { 4 + length spelling.now < 2 ^ 32 }
        ensures { result ≡ hmac (update_key_of self.now.bytes) (epoch.now ++ spelling.now) }
    {
        self.updates.mac(epoch, spelling)
    }
}
