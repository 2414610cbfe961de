//! The cipher of four blocks at once, under one key.

ghost use Rattle.std.specs.Prelude.{◌≡◌, ℕ, ◌<◌, ◌≤◌, ◌+◌, List, [], slice_index_or};
ghost use Rattle.ov_aes.specs.Aes.{aes256};
ghost use Rattle.ov_aes.specs.Fronts.{IsFrontOf, with_last};
ghost use Rattle.ov_aes.specs.KeyExpansion.{key_expansion, key_of};
ghost use Rattle.ov_aes.specs.RowKeys.{IsRowKeys};

use crate::front::Front;
use crate::key_schedule::{KeySchedule, expand_key};
use crate::rounds::encrypt;
use crate::row_blocks::Blocks;
use crate::row_cipher::encrypt_four;
use crate::row_keys::{RowKeys, row_keys};
use std::marker::Model;

/// AES-256 under one key of 32 bytes (FIPS 197), of four blocks at once. A contract sees it as the
/// key.
///
/// `front` and `four_blocks` look bytes up in vectors and in no table in memory; `new`, which
/// expands the key, and `block` look them up in tables.
#[derive(Drop)]
pub struct LaneAes256 {
    words: KeySchedule,
    keys: RowKeys,
}

impl Model for LaneAes256 {
    ghost Value = { List ℕ };

    ghost view = { λ a. key_of a.words };

    ghost invariant = { λ a. (a.words ≡ key_expansion (key_of a.words)) × IsRowKeys a.keys a.words };
}

impl LaneAes256 {
    /// The cipher under this key of 32 bytes: the key is expanded and laid out in rows once, here.
    pub fn new(key: &[u8; 32]) -> LaneAes256
        ensures { result ≡ key.now }
    {
        let words = expand_key(key);
        let keys = row_keys(&words);
        LaneAes256 { words, keys }
    }

    /// The cipher of one block of 16 bytes (FIPS 197, 5.1), by tables.
    pub fn block(&self, input: &[u8; 16]) -> [u8; 16]
        ensures { result ≡ aes256 self.now input.now }
    {
        encrypt(&self.words, input)
    }

    /// What the first two rounds have in common for the blocks that are this one but for the last
    /// byte.
    pub fn front(&self, block: &[u8; 16]) -> Front
        ensures { IsFrontOf result self.now block.now }
    {
        Front::new(&self.keys, block)
    }

    /// The cipher of each of four blocks of a front (FIPS 197, 5.1), whose last bytes are counted
    /// from `last` on.
    pub fn four_blocks(&self, front: &Front, last: u8) -> Blocks
        requires { last + 4 ≤ 256 }
        ensures { (block : List ℕ) (n : ℕ) → IsFrontOf front.now self.now block → n < 4
            → slice_index_or result n [] ≡ aes256 self.now (with_last block (last + n)) }
    {
        encrypt_four(&self.keys, front, last)
    }
}
