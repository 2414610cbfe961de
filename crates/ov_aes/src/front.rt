//! The first two rounds of blocks that differ in their last byte.
//!
//! The last byte is one term of each sum in the first column of round 1, and each byte of that
//! column is one term of each sum in one column of round 2. The sums without these terms are made
//! once for all such blocks.

ghost use Rattle.std.specs.Prelude.{◌≡◌, ℕ, ◌<◌, ◌+◌, ◌*◌, List, ◌∷◌, [], bit_xor, slice_index};
ghost use Rattle.ov_aes.specs.Cipher.{rounds};
ghost use Rattle.ov_aes.specs.Fronts.{IsFront, row_for, with_last};
ghost use Rattle.ov_aes.specs.RowKeys.{IsRowKeys};
ghost use Rattle.ov_aes.specs.Rows.{held_in, lane_in};
ghost use Rattle.ov_aes.specs.Tower.{from_tower};

use crate::row_blocks::rows_of;
use crate::row_keys::{RowKeys, rows_at};
use crate::row_rounds::{Rows, first_key, round};
use crate::row_steps::entered;
use crate::weights::{added, column_terms, last_terms};
use std::simd::prelude::*;

/// What the first two rounds have in common for blocks that differ in their last byte alone.
#[derive(Drop)]
pub struct Front {
    last: u8x16,
    column: u8x16,
    row_0: u8x16,
    row_1: u8x16,
    row_2: u8x16,
    row_3: u8x16,
}

// The last byte of each block, in the place of each column, from the blocks' last row.
fn last_byte(row: u8x16) -> u8x16
    ensures { (b c : ℕ) → b < 4 → c < 4
        → slice_index result (4 * b + c) ≡ slice_index row (4 * b + 3) }
{
    row.swizzle([3, 3, 3, 3, 7, 7, 7, 7, 11, 11, 11, 11, 15, 15, 15, 15])
}

// The first column of each block, by the columns to which a round moves its bytes.
fn first_column(x: u8x16, y: u8x16, z: u8x16, t: u8x16) -> u8x16
    ensures { (b c : ℕ) → b < 4 → c < 4
        → slice_index result (4 * b + c) ≡ lane_in (x ∷ y ∷ z ∷ t ∷ []) b (row_for c) 0 }
{
    let ends = x.shuffle(
        t,
        [0, 16, 0, 16, 4, 20, 4, 20, 8, 24, 8, 24, 12, 28, 12, 28],
    );
    let middle = z.shuffle(
        y,
        [0, 16, 0, 16, 4, 20, 4, 20, 8, 24, 8, 24, 12, 28, 12, 28],
    );
    ends.shuffle(
        middle,
        [0, 1, 18, 19, 4, 5, 22, 23, 8, 9, 26, 27, 12, 13, 30, 31],
    )
}

// The sums of two groups of rows.
#[inline(always)]
fn added_rows(rows: Rows, terms: Rows) -> Rows
    ensures { (b r c : ℕ) → b < 4 → r < 4 → c < 4 → from_tower (lane_in result b r c)
        ≡ bit_xor (from_tower (lane_in rows b r c)) (from_tower (lane_in terms b r c)) }
{
    let [x, y, z, t] = rows;
    let [p, q, r, s] = terms;
    [added(x, p), added(y, q), added(z, r), added(t, s)]
}

impl Front {
    /// The front of the blocks that are this one but for the last byte.
    pub fn new(keys: &RowKeys, block: &[u8; 16]) -> Front
        ensures { (w : List (List ℕ)) → IsRowKeys keys.now w → IsFront result w block.now }
    {
        let key = rows_at(keys, 0);
        let before = first_key(rows_of(block, block, block, block), key);
        let [x, y, z, t] = round(before, rows_at(keys, 1));
        let second = round([x, y, z, t], rows_at(keys, 2));
        let column = first_column(x, y, z, t);
        let [row_0, row_1, row_2, row_3] = added_rows(second, column_terms(column));
        Front {
            last: last_byte(key[3]),
            column: added(column, last_terms(last_byte(before[3]))),
            row_0,
            row_1,
            row_2,
            row_3,
        }
    }

    /// Four of these blocks after two rounds. `last` has the last byte of each, in the place of
    /// each column.
    #[inline(always)]
    pub fn started(&self, last: u8x16) -> Rows
        ensures { (w : List (List ℕ)) (block : List ℕ) (b x : ℕ)
            → IsFront self.now w block
            → b < 4
            → ((c : ℕ) → c < 4 → slice_index last (4 * b + c) ≡ x)
            → held_in result b ≡ rounds w (with_last block x) 2 }
    {
        let column = added(self.column, last_terms(entered(last, self.last)));
        let rows = [self.row_0, self.row_1, self.row_2, self.row_3];
        added_rows(rows, column_terms(column))
    }
}
