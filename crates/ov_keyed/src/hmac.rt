//! HMAC of RFC 2104 over SHA-256.

ghost use Rattle.std.specs.Prelude.{◌≡◌, ◌+◌, ◌^◌, ◌<◌, ◌++◌, length};
ghost use Rattle.ov_keyed.specs.Hmac.{hmac};

use crate::key_block::{INNER, OUTER, padded};
use sha2::{Digest, Sha256};

/// The HMAC-SHA256 tag of `first` followed by `second`: 32 bytes that depend on the two parts only
/// through the message that they make (RFC 2104, section 2).
///
/// The condition keeps the message far below the 2^64 bits for which SHA-256 is defined.
#[tactic(auto, unfolding(crate::specs::Hmac::hmac))]
pub fn mac(key: &[u8; 32], first: &[u8], second: &[u8]) -> [u8; 32]
    requires { length first.now + length second.now < 2 ^ 32 }
    ensures { result ≡ hmac key.now (first.now ++ second.now) }
{
    let mut inner = Sha256::new();
    inner.update(padded(key, INNER));
    inner.update(first);
    inner.update(second);
    let mut outer = Sha256::new();
    outer.update(padded(key, OUTER));
    outer.update(inner.finalize());
    outer.finalize()
}
