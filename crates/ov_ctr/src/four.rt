//! The pad of groups of four blocks, whose counter blocks differ in the last byte alone.

ghost use Rattle.std.specs.Prelude.{ℕ, ◌≡◌, ◌<◌, ◌≤◌, ◌+◌, ◌*◌, ◌/◌, ◌%◌, [], length, slice_index, slice_index_or, bit_xor};
ghost use Rattle.ov_ctr.specs.Ctr.{pad_byte};

use crate::counter::counter_block;
use ov_aes::{Blocks, LaneAes256};
use std::simd::prelude::*;

// Adds a block to 16 bytes.
#[inline(always)]
fn add_block(pad: u8x16, piece: &mut [u8])
    requires { length piece.old ≡ 16 }
    ensures { (i : ℕ) → i < 16
        → slice_index piece.new i ≡ bit_xor (slice_index piece.old i) (slice_index pad i) }
{
    let sum = u8x16::from_slice(piece) ^ pad;
    sum.copy_to_slice(piece);
}

// Adds four blocks to 64 bytes.
#[inline(always)]
fn add_four(pads: Blocks, piece: &mut [u8])
    requires { length piece.old ≡ 64 }
    ensures { (i : ℕ) → i < 64 → slice_index piece.new i
        ≡ bit_xor (slice_index piece.old i)
        (slice_index (slice_index_or pads (i / 16) []) (i % 16)) }
{
    for n in 0..4usize {
        add_block(pads[n], &mut piece[16 * n..16 * n + 16]);
    }
}

/// Adds the pad to the bytes of whole groups of four blocks. The first block has this number, and
/// the numbers of the others differ from it in the last byte alone.
pub fn apply_groups(aes: &LaneAes256, tag: u8, file: u32, number: u64, piece: &mut [u8])
    requires groups { length piece.old % 64 ≡ 0 }
    requires last { number % 256 + length piece.old / 16 ≤ 256 }
    ensures { (i : ℕ) → i < length piece.old → slice_index piece.new i
        ≡ bit_xor (slice_index piece.old i) (pad_byte aes.now tag file (16 * number + i)) }
{
    let front = aes.front(&counter_block(tag, file, number));
    let first = (number % 256) as usize;
    for g in 0..piece.len() / 64 {
        let pads = aes.four_blocks(&front, (first + 4 * g) as u8);
        add_four(pads, &mut piece[64 * g..64 * g + 64]);
    }
}
