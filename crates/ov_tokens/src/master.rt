//! The master of a layer.

ghost use Rattle.std.specs.Prelude.{◌≡◌, ◌^◌, ◌<◌, length};
ghost use Rattle.ov_keyed.specs.Hmac.{hmac};

use ov_base::Key;
use ov_keyed::MacKey;
use std::marker::Model;

/// A key from which many others are derived: the blocks of its HMAC are hashed once for all of
/// them.
#[derive(Drop)]
pub struct Master {
    key: MacKey,
}

impl Model for Master {
    ghost use Rattle.ov_base.specs.declared.key.Key.{Key};

    ghost Value = { Key };

    ghost view = { λ m. record { bytes = m.key } };
}

impl Master {
    /// The master of this key. It takes no memory.
    pub fn new(key: &Key) -> Master
        ensures { result ≡ key.now }
    {
        Master {
            key: MacKey::new(&key.bytes),
        }
    }

    /// The HMAC-SHA256 tag of a message under the master.
    ///
    /// The condition keeps the message far below the 2^64 bits for which SHA-256 is defined.
    pub fn mac(&self, message: &[u8]) -> [u8; 32]
        requires { length message.now < 2 ^ 32 }
        ensures { result ≡ hmac self.now.bytes message.now }
    {
        self.key.mac(message, b"")
    }
}
