//! The rounds of four blocks at once, by their rows.
//!
//! A vector has one row of each of four blocks, so a column is mixed by sums of vectors. Between
//! the first and the last key the bytes are in the basis of [`crate::tower`], and a key has in it
//! what the constants of the affine maps add up to.

ghost use Rattle.std.specs.Prelude.{◌≡◌, ℕ, ◌<◌, List, ◌∷◌, []};
ghost use Rattle.ov_aes.specs.Cipher.{add_round_key, full_round, shift_rows, sub_bytes};
ghost use Rattle.ov_aes.specs.Rows.{block_in, flat_key, held_in, round_key};

use crate::row_steps::{entered, left, one_on, substituted, summed, three_on, two_on};
use std::simd::prelude::*;

/// The rows 0 to 3 of four blocks.
pub type Rows = [u8x16; 4];

/// The addition of the first round key (FIPS 197, 5.1.4), and the change of basis.
#[inline(always)]
pub fn first_key(rows: Rows, key: Rows) -> Rows
    ensures { (b : ℕ) (w : List (List ℕ))
        → b < 4
        → held_in key b ≡ round_key w 0
        → held_in result b ≡ add_round_key (block_in rows b) w 0 }
{
    let [x, y, z, t] = rows;
    let [p, q, r, s] = key;
    [entered(x, p), entered(y, q), entered(z, r), entered(t, s)]
}

/// One of the rounds 1 to 13 (FIPS 197, 5.1).
#[inline(always)]
pub fn round(rows: Rows, key: Rows) -> Rows
    ensures { (b round : ℕ) (w : List (List ℕ))
        → b < 4
        → held_in key b ≡ flat_key w round
        → held_in result b ≡ full_round (held_in rows b) w round }
{
    let [x, y, z, t] = rows;
    let [p, q, r, s] = key;
    let (a1, a2, a3) = substituted(x);
    let (b1, b2, b3) = substituted(one_on(y));
    let (c1, c2, c3) = substituted(two_on(z));
    let (d1, d2, d3) = substituted(three_on(t));
    [
        summed(a2, b3, c1, d1, p),
        summed(a1, b2, c3, d1, q),
        summed(a1, b1, c2, d3, r),
        summed(a3, b1, c1, d2, s),
    ]
}

/// The last round, which doesn't mix columns, back in the standard's basis (FIPS 197, 5.1).
#[inline(always)]
pub fn last_round(rows: Rows, key: Rows) -> Rows
    ensures { (b round : ℕ) (w : List (List ℕ))
        → b < 4
        → block_in key b ≡ flat_key w round
        → block_in result b ≡ add_round_key (shift_rows (sub_bytes (held_in rows b))) w round }
{
    let [x, y, z, t] = rows;
    let [p, q, r, s] = key;
    [
        left(x, p),
        left(one_on(y), q),
        left(two_on(z), r),
        left(three_on(t), s),
    ]
}
