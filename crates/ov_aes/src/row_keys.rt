//! The round keys, in the rows of four blocks.

ghost use Rattle.std.specs.Prelude.{◌≡◌, ℕ, ◌<◌, ◌≤◌, ◌+◌, ◌*◌, bit_xor, slice_index};
ghost use Rattle.ov_aes.specs.State.{word_in};
ghost use Rattle.ov_aes.specs.Rows.{rows_at};
ghost use Rattle.ov_aes.specs.RowKeys.{IsKeyRow, IsRowKeys};
ghost use Rattle.ov_aes.specs.Tower.{from_tower};

use crate::key_schedule::KeySchedule;
use crate::row_rounds::Rows;
use crate::tower::enter;
use std::simd::prelude::*;

/// The keys of the rounds 0 to 14, each in four rows.
pub type RowKeys = [[u8; 16]; 60];

// A row of a round key, in each of four blocks.
fn key_row(w: &KeySchedule, round: usize, row: usize) -> u8x16
    requires round { round ≤ 14 }
    requires row { row < 4 }
    ensures { (b c : ℕ) → b < 4 → c < 4
        → slice_index result (4 * b + c) ≡ slice_index (word_in w.now (4 * round + c)) row }
{
    let a = w[4 * round][row];
    let b = w[4 * round + 1][row];
    let c = w[4 * round + 2][row];
    let d = w[4 * round + 3][row];
    u8x16::from_array([a, b, c, d, a, b, c, d, a, b, c, d, a, b, c, d])
}

// A row with the constant that the affine maps of a column leave.
fn flat(row: u8x16) -> u8x16
    ensures { (l : ℕ) → l < 16 → slice_index result l ≡ bit_xor (slice_index row l) 0x63 }
{
    row ^ u8x16::splat(0x63)
}

// A row in the basis over the field of 16.
fn within_basis(row: u8x16) -> u8x16
    ensures { (l : ℕ) → l < 16 → from_tower (slice_index result l) ≡ slice_index row l }
{
    enter(row)
}

// Row `i % 4` of the key of round `i / 4`, as that round takes it.
fn key_bytes(w: &KeySchedule, i: usize) -> [u8; 16]
    requires { i < 60 }
    ensures { IsKeyRow result w.now i }
{
    let row = key_row(w, i / 4, i % 4);
    if i < 4 {
        within_basis(row).to_array()
    } else if i < 56 {
        within_basis(flat(row)).to_array()
    } else {
        flat(row).to_array()
    }
}

/// The round keys of a key schedule.
pub fn row_keys(w: &KeySchedule) -> RowKeys
    ensures { IsRowKeys result w.now }
{
    let mut keys = [[0u8; 16]; 60];
    for i in 0..60usize {
        keys[i] = key_bytes(w, i);
    }
    keys
}

/// The key of one round.
#[inline(always)]
pub fn rows_at(keys: &RowKeys, round: usize) -> Rows
    requires { round < 15 }
    ensures { result ≡ rows_at keys.now round }
{
    [
        u8x16::from_array(keys[4 * round]),
        u8x16::from_array(keys[4 * round + 1]),
        u8x16::from_array(keys[4 * round + 2]),
        u8x16::from_array(keys[4 * round + 3]),
    ]
}
