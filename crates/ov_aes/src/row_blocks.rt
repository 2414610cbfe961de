//! Four blocks, and their rows.

ghost use Rattle.std.specs.Prelude.{◌≡◌, ℕ, ◌<◌, List, ◌∷◌, [], slice_index_or};
ghost use Rattle.ov_aes.specs.Rows.{block_in};

use crate::row_rounds::Rows;
use std::simd::prelude::*;

/// Four blocks of 16 bytes.
pub type Blocks = [u8x16; 4];

/// The rows of four blocks: first two rows of two blocks, and then each row of all four.
#[inline(always)]
pub fn rows_of(a: &[u8; 16], b: &[u8; 16], c: &[u8; 16], d: &[u8; 16]) -> Rows
    ensures { (n : ℕ) → n < 4
        → block_in result n ≡ slice_index_or (a.now ∷ b.now ∷ c.now ∷ d.now ∷ []) n [] }
{
    let (a, b) = (u8x16::from_array(*a), u8x16::from_array(*b));
    let (c, d) = (u8x16::from_array(*c), u8x16::from_array(*d));
    let e = a.shuffle(
        b,
        [0, 4, 8, 12, 16, 20, 24, 28, 1, 5, 9, 13, 17, 21, 25, 29],
    );
    let f = a.shuffle(
        b,
        [2, 6, 10, 14, 18, 22, 26, 30, 3, 7, 11, 15, 19, 23, 27, 31],
    );
    let g = c.shuffle(
        d,
        [0, 4, 8, 12, 16, 20, 24, 28, 1, 5, 9, 13, 17, 21, 25, 29],
    );
    let h = c.shuffle(
        d,
        [2, 6, 10, 14, 18, 22, 26, 30, 3, 7, 11, 15, 19, 23, 27, 31],
    );
    [
        e.shuffle(g, [0, 1, 2, 3, 4, 5, 6, 7, 16, 17, 18, 19, 20, 21, 22, 23]),
        e.shuffle(
            g,
            [8, 9, 10, 11, 12, 13, 14, 15, 24, 25, 26, 27, 28, 29, 30, 31],
        ),
        f.shuffle(h, [0, 1, 2, 3, 4, 5, 6, 7, 16, 17, 18, 19, 20, 21, 22, 23]),
        f.shuffle(
            h,
            [8, 9, 10, 11, 12, 13, 14, 15, 24, 25, 26, 27, 28, 29, 30, 31],
        ),
    ]
}

/// The blocks that four rows have: first pairs of their bytes, and then columns.
#[inline(always)]
pub fn blocks_of(x: u8x16, y: u8x16, z: u8x16, t: u8x16) -> Blocks
    ensures { (n : ℕ) → n < 4
        → slice_index_or result n [] ≡ block_in (x ∷ y ∷ z ∷ t ∷ []) n }
{
    let e = x.shuffle(y, [0, 16, 1, 17, 2, 18, 3, 19, 4, 20, 5, 21, 6, 22, 7, 23]);
    let f = x.shuffle(
        y,
        [8, 24, 9, 25, 10, 26, 11, 27, 12, 28, 13, 29, 14, 30, 15, 31],
    );
    let g = z.shuffle(t, [0, 16, 1, 17, 2, 18, 3, 19, 4, 20, 5, 21, 6, 22, 7, 23]);
    let h = z.shuffle(
        t,
        [8, 24, 9, 25, 10, 26, 11, 27, 12, 28, 13, 29, 14, 30, 15, 31],
    );
    [
        e.shuffle(g, [0, 1, 16, 17, 2, 3, 18, 19, 4, 5, 20, 21, 6, 7, 22, 23]),
        e.shuffle(
            g,
            [8, 9, 24, 25, 10, 11, 26, 27, 12, 13, 28, 29, 14, 15, 30, 31],
        ),
        f.shuffle(h, [0, 1, 16, 17, 2, 3, 18, 19, 4, 5, 20, 21, 6, 7, 22, 23]),
        f.shuffle(
            h,
            [8, 9, 24, 25, 10, 11, 26, 27, 12, 13, 28, 29, 14, 15, 30, 31],
        ),
    ]
}
