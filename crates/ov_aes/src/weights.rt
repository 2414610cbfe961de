//! Terms of mixed columns: products of bytes after the S-box, with a weight for each column.

ghost use Rattle.std.specs.Prelude.{◌≡◌, ℕ, ◌<◌, ◌+◌, ◌*◌, bit_and, bit_xor, slice_index};
ghost use Rattle.ov_aes.specs.Fronts.{row_for, weighed, weight};
ghost use Rattle.ov_aes.specs.Rows.{lane_in};
ghost use Rattle.ov_aes.specs.Tower.{from_tower};

use crate::row_rounds::Rows;
use crate::tower::within;
use std::simd::prelude::*;

// All bits of a lane.
const ALL: u8 = 255;

/// A byte for each column, in each of four blocks.
#[inline(always)]
pub fn each_block(bytes: [u8; 4]) -> u8x16
    ensures { (b c : ℕ) → b < 4 → c < 4
        → slice_index result (4 * b + c) ≡ slice_index bytes c }
{
    let [a, b, c, d] = bytes;
    u8x16::from_array([a, b, c, d, a, b, c, d, a, b, c, d, a, b, c, d])
}

// The sum of the lanes of `once` that `odd` has, and of those of `twice` that `high` has: once is
// the weight 1, twice is 2, and both are 3.
#[inline(always)]
fn chosen(once: u8x16, twice: u8x16, odd: u8x16, high: u8x16) -> u8x16
    ensures { (l : ℕ) → l < 16 → slice_index result l
        ≡ bit_xor (bit_and (slice_index once l) (slice_index odd l))
        (bit_and (slice_index twice l) (slice_index high l)) }
{
    (once & odd) ^ (twice & high)
}

/// The terms in the first column that come from the last byte of each block, by the columns to
/// which the next round moves them.
#[inline(always)]
pub fn last_terms(last: u8x16) -> u8x16
    ensures { (b c : ℕ) → b < 4 → c < 4 → from_tower (slice_index result (4 * b + c))
        ≡ weighed (weight (row_for c) 3) (from_tower (slice_index last (4 * b + c))) }
{
    let (once, twice) = within(last);
    chosen(
        once,
        twice,
        each_block([ALL, 0, ALL, ALL]),
        each_block([0, ALL, ALL, 0]),
    )
}

/// The terms of a round that come from the bytes of the first column, arranged by the columns to
/// which the round moves them.
#[inline(always)]
pub fn column_terms(column: u8x16) -> Rows
    ensures { (b r c : ℕ) → b < 4 → r < 4 → c < 4 → from_tower (lane_in result b r c)
        ≡ weighed (weight r (row_for c)) (from_tower (slice_index column (4 * b + c))) }
{
    let (once, twice) = within(column);
    [
        chosen(
            once,
            twice,
            each_block([0, ALL, ALL, ALL]),
            each_block([ALL, 0, 0, ALL]),
        ),
        chosen(
            once,
            twice,
            each_block([ALL, ALL, ALL, 0]),
            each_block([0, 0, ALL, ALL]),
        ),
        chosen(
            once,
            twice,
            each_block([ALL, ALL, 0, ALL]),
            each_block([0, ALL, ALL, 0]),
        ),
        chosen(
            once,
            twice,
            each_block([ALL, 0, ALL, ALL]),
            each_block([ALL, ALL, 0, 0]),
        ),
    ]
}

/// The sum of two vectors.
#[inline(always)]
pub fn added(a: u8x16, b: u8x16) -> u8x16
    ensures { (l : ℕ) → l < 16 → from_tower (slice_index result l)
        ≡ bit_xor (from_tower (slice_index a l)) (from_tower (slice_index b l)) }
{
    a ^ b
}
