//! A tag of a message that is given piece by piece.

ghost use Rattle.std.specs.Prelude.{◌≡◌, ℕ, ◌^◌, ◌<◌, List, [], ◌++◌, length};
ghost use Rattle.ov_keyed.specs.Hmac.{hmac};
ghost use Rattle.ov_keyed.specs.Holding.{Holds};

use crate::key_block::{INNER, OUTER, padded};
use sha2::{Digest, Sha256};

/// A key and the pieces of a message so far. It holds the message that the pieces make under the
/// key, `Holds`, and takes no memory.
#[derive(Drop)]
pub struct Pieces {
    inner: Sha256,
    outer: Sha256,
}

impl Pieces {
    /// Holds the empty message under the key (RFC 2104, section 2, steps 1, 2 and 5).
    pub fn new(key: &[u8; 32]) -> Pieces
        ensures { Holds result key.now [] }
    {
        let mut inner = Sha256::new();
        inner.update(padded(key, INNER));
        let mut outer = Sha256::new();
        outer.update(padded(key, OUTER));
        Pieces { inner, outer }
    }

    /// What is held, held a second time.
    pub(crate) fn copy(&self) -> Pieces
        ensures { result ≡ self.now }
    {
        let inner: Result<_, _> = self.inner.clone();
        let outer: Result<_, _> = self.outer.clone();
        match (inner, outer) {
            (Ok(inner), Ok(outer)) => Pieces { inner, outer },
            _ => unreachable!(),
        }
    }

    /// Puts a piece at the end of the message (RFC 2104, section 2, step 3).
    pub fn add(&mut self, piece: &[u8])
        ensures { (key message : List ℕ)
            → Holds self.old key message
            → Holds self.new key (message ++ piece.now) }
    {
        self.inner.update(piece);
    }

    /// The HMAC-SHA256 tag of the message (RFC 2104, section 2, steps 4, 6 and 7).
    ///
    /// The condition keeps the message far below the 2^64 bits for which SHA-256 is defined.
    pub fn finish(self) -> [u8; 32]
        ensures { (key message : List ℕ)
            → Holds self key message
            → length message < 2 ^ 32
            → result ≡ hmac key message }
    {
        let mut outer = self.outer;
        outer.update(self.inner.finalize());
        outer.finalize()
    }
}
