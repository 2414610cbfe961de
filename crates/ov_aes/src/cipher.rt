//! The cipher under one key.

ghost use Rattle.std.specs.Prelude.{◌≡◌, ℕ, List};
ghost use Rattle.ov_aes.specs.Aes.{aes256};
ghost use Rattle.ov_aes.specs.KeyExpansion.{key_expansion, key_of};

use crate::key_schedule::{KeySchedule, expand_key};
use crate::rounds::encrypt;
use std::marker::Model;

/// AES-256 under one key of 32 bytes (FIPS 197). A contract sees it as the key.
///
/// A round looks each byte up in one of four tables of 256 words.
#[derive(Drop)]
pub struct Aes256 {
    words: KeySchedule,
}

impl Model for Aes256 {
    ghost Value = { List ℕ };

    ghost view = { λ a. key_of a.words };

    ghost invariant = { λ a. a.words ≡ key_expansion (key_of a.words) };
}

impl Aes256 {
    /// The cipher under this key of 32 bytes: the key is expanded once, here.
    pub fn new(key: &[u8; 32]) -> Aes256
        ensures { result ≡ key.now }
    {
        Aes256 {
            words: expand_key(key),
        }
    }

    /// The cipher of one block of 16 bytes (FIPS 197, 5.1). Byte `r + 4 c` of a block is in row `r`
    /// and column `c` of the state.
    pub fn block(&self, input: &[u8; 16]) -> [u8; 16]
        ensures { result ≡ aes256 self.now input.now }
    {
        encrypt(&self.words, input)
    }
}
