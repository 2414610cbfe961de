//! The cipher of four blocks that differ in their last byte.

ghost use Rattle.std.specs.Prelude.{◌≡◌, ℕ, ◌<◌, ◌≤◌, ◌+◌, ◌*◌, List, [], slice_index, slice_index_or};
ghost use Rattle.ov_aes.specs.Cipher.{cipher};
ghost use Rattle.ov_aes.specs.Fronts.{IsFront, with_last};
ghost use Rattle.ov_aes.specs.RowKeys.{IsRowKeys};

use crate::front::Front;
use crate::row_blocks::{Blocks, blocks_of};
use crate::row_keys::{RowKeys, rows_at};
use crate::row_rounds::{last_round, round};
use std::simd::prelude::*;

// The last bytes of four blocks, counted from `last` on, each in the place of every column.
#[inline(always)]
fn last_bytes(last: u8) -> u8x16
    requires { last + 4 ≤ 256 }
    ensures { (b c : ℕ) → b < 4 → c < 4 → slice_index result (4 * b + c) ≡ last + b }
{
    u8x16::splat(last) + u8x16::from_array([0, 0, 0, 0, 1, 1, 1, 1, 2, 2, 2, 2, 3, 3, 3, 3])
}

/// The cipher of each of four blocks of a front (FIPS 197, 5.1), whose last bytes are counted from
/// `last` on.
#[inline(always)]
pub fn encrypt_four(keys: &RowKeys, front: &Front, last: u8) -> Blocks
    requires { last + 4 ≤ 256 }
    ensures { (w : List (List ℕ)) (block : List ℕ) (b : ℕ)
        → IsRowKeys keys.now w
        → IsFront front.now w block
        → b < 4
        → slice_index_or result b [] ≡ cipher w (with_last block (last + b)) }
{
    let mut rows = front.started(last_bytes(last));
    for n in 3..14usize {
        let next = round(rows, rows_at(keys, n));
        rows = next;
    }
    let [x, y, z, t] = last_round(rows, rows_at(keys, 14));
    blocks_of(x, y, z, t)
}
