//! The steps of a round on one vector.

ghost use Rattle.std.specs.Prelude.{◌≡◌, ℕ, ◌<◌, ◌+◌, ◌*◌, ◌%◌, bit_xor, slice_index};
ghost use Rattle.ov_aes.specs.Cipher.{sbox};
ghost use Rattle.ov_aes.specs.Field.{times};
ghost use Rattle.ov_aes.specs.Tower.{from_tower, sum5};

use crate::tower::{enter, leave, within};
use std::simd::prelude::*;

/// The row 1 of four blocks, moved by one place to the left (FIPS 197, 5.1.2).
#[inline(always)]
pub fn one_on(row: u8x16) -> u8x16
    ensures { (b c : ℕ) → b < 4 → c < 4
        → slice_index result (4 * b + c) ≡ slice_index row (4 * b + (c + 1) % 4) }
{
    row.swizzle([1, 2, 3, 0, 5, 6, 7, 4, 9, 10, 11, 8, 13, 14, 15, 12])
}

/// The row 2 of four blocks, moved by two places.
#[inline(always)]
pub fn two_on(row: u8x16) -> u8x16
    ensures { (b c : ℕ) → b < 4 → c < 4
        → slice_index result (4 * b + c) ≡ slice_index row (4 * b + (c + 2) % 4) }
{
    row.swizzle([2, 3, 0, 1, 6, 7, 4, 5, 10, 11, 8, 9, 14, 15, 12, 13])
}

/// The row 3 of four blocks, moved by three places.
#[inline(always)]
pub fn three_on(row: u8x16) -> u8x16
    ensures { (b c : ℕ) → b < 4 → c < 4
        → slice_index result (4 * b + c) ≡ slice_index row (4 * b + (c + 3) % 4) }
{
    row.swizzle([3, 0, 1, 2, 7, 4, 5, 6, 11, 8, 9, 10, 15, 12, 13, 14])
}

/// The S-box of each byte but for a constant, and its products with 2 and 3.
#[inline(always)]
pub fn substituted(row: u8x16) -> (u8x16, u8x16, u8x16)
    ensures once { (l : ℕ) → l < 16 → from_tower (slice_index result.0 l)
        ≡ bit_xor (sbox (from_tower (slice_index row l))) 0x63 }
    ensures twice { (l : ℕ) → l < 16 → from_tower (slice_index result.1 l)
        ≡ bit_xor (times 2 (sbox (from_tower (slice_index row l)))) 0xc6 }
    ensures thrice { (l : ℕ) → l < 16 → from_tower (slice_index result.2 l)
        ≡ bit_xor (times 3 (sbox (from_tower (slice_index row l)))) 0xa5 }
{
    let (one, two) = within(row);
    (one, two, one ^ two)
}

/// The sum of five vectors.
#[inline(always)]
pub fn summed(a: u8x16, b: u8x16, c: u8x16, d: u8x16, key: u8x16) -> u8x16
    ensures { (l : ℕ) → l < 16 → from_tower (slice_index result l)
        ≡ sum5 (from_tower (slice_index a l)) (from_tower (slice_index b l))
        (from_tower (slice_index c l)) (from_tower (slice_index d l))
        (from_tower (slice_index key l)) }
{
    a ^ b ^ c ^ d ^ key
}

/// A row in the basis over the field of 16, with a key that is in it.
#[inline(always)]
pub fn entered(row: u8x16, key: u8x16) -> u8x16
    ensures { (l : ℕ) → l < 16 → from_tower (slice_index result l)
        ≡ bit_xor (slice_index row l) (from_tower (slice_index key l)) }
{
    enter(row) ^ key
}

/// The S-box of a row but for a constant, out of that basis, with a key.
#[inline(always)]
pub fn left(row: u8x16, key: u8x16) -> u8x16
    ensures { (l : ℕ) → l < 16 → slice_index result l
        ≡ bit_xor (bit_xor (sbox (from_tower (slice_index row l))) 0x63) (slice_index key l) }
{
    leave(row) ^ key
}
