//! The pad over a buffer, four blocks at a time, and a block at a time beside them.

ghost use Rattle.std.specs.Prelude.{ℕ, ◌≡◌, ◌<◌, ◌≤◌, ◌+◌, ◌-◌, ◌*◌, ◌/◌, ◌%◌, length, slice_index, bit_xor};
ghost use Rattle.ov_ctr.specs.Ctr.{xor_pad};
ghost use Rattle.ov_ctr.specs.Steps.{PadsFirst};

use crate::counter::counter_block;
use crate::four::apply_groups;
use ov_aes::{Aes256, LaneAes256};

// Texts of fewer bytes are done a block at a time: laying out the round keys for four costs more.
const FEW: usize = 256;

// Adds a block of the pad, from its byte `skip` on, to as many bytes as `piece` has.
fn add_pad(pad: &[u8; 16], skip: usize, piece: &mut [u8])
    requires { skip + length piece.old ≤ 16 }
    ensures { (i : ℕ) → i < length piece.old → slice_index piece.new i
        ≡ bit_xor (slice_index piece.old i) (slice_index pad.now (skip + i)) }
{
    for i in 0..piece.len() {
        piece[i] ^= pad[skip + i];
    }
}

// Adds a block of the pad to the first of these bytes, those that lie within the block; the first
// of them is at `place`. Gives how many it added to.
fn add_within(pad: &[u8; 16], place: u64, rest: &mut [u8]) -> usize
    requires { 0 < length rest.old }
    ensures count { (0 < result) × (result ≤ length rest.old) × (result ≤ 16 - place % 16) }
    ensures added { (i : ℕ) → i < result → slice_index rest.new i
        ≡ bit_xor (slice_index rest.old i) (slice_index pad.now (place % 16 + i)) }
    ensures after { (i : ℕ) → result ≤ i → slice_index rest.new i ≡ slice_index rest.old i }
{
    let skip = (place % 16) as usize;
    let count = (16 - skip).min(rest.len());
    add_pad(pad, skip, &mut rest[..count]);
    count
}

// Adds the pad to the first of these bytes, which begin at `place`. Where a block begins there,
// these are the bytes of whole groups of four blocks up to the next multiple of 4,096, where more
// than the last byte of a counter block changes; otherwise they are those of one block. Gives how
// many it added to.
fn apply_some(aes: &LaneAes256, tag: u8, file: u32, place: u64, rest: &mut [u8]) -> usize
    requires some { 0 < length rest.old }
    requires place { place + length rest.old ≤ 4294967296 }
    ensures { PadsFirst aes.now tag file place result rest.old rest.new }
{
    let room = (4096 - place % 4096) as usize;
    let groups = (room / 64).min(rest.len() / 64);
    if place % 16 == 0 && 0 < groups {
        apply_groups(aes, tag, file, place / 16, &mut rest[..64 * groups]);
        64 * groups
    } else {
        let counter = counter_block(tag, file, place / 16);
        add_within(&aes.block(&counter), place, rest)
    }
}

// Adds the pad of one block to the first of these bytes, which begin at `place`. Gives how many it
// added to.
fn apply_one(aes: &Aes256, tag: u8, file: u32, place: u64, rest: &mut [u8]) -> usize
    requires some { 0 < length rest.old }
    requires place { place + length rest.old ≤ 4294967296 }
    ensures { PadsFirst aes.now tag file place result rest.old rest.new }
{
    let block = counter_block(tag, file, place / 16);
    add_within(&aes.block(&block), place, rest)
}

// The pad over many bytes.
fn apply_lanes(key: &[u8; 32], tag: u8, file: u32, start: u64, buf: &mut [u8])
    requires { start + length buf.old ≤ 4294967296 }
    ensures { buf.new ≡ xor_pad key.now tag file start buf.old }
{
    let aes = LaneAes256::new(key);
    let mut done = 0;
    while done < buf.len() {
        let count = apply_some(&aes, tag, file, start + done as u64, &mut buf[done..]);
        done += count;
    }
}

// The pad over few bytes.
fn apply_blocks(key: &[u8; 32], tag: u8, file: u32, start: u64, buf: &mut [u8])
    requires { start + length buf.old ≤ 4294967296 }
    ensures { buf.new ≡ xor_pad key.now tag file start buf.old }
{
    let aes = Aes256::new(key);
    let len = buf.len();
    let mut done = 0;
    while done < len {
        let count = apply_one(&aes, tag, file, start + done as u64, &mut buf[done..]);
        done += count;
    }
}

/// Adds the pad to the bytes of `buf`, by XOR; the same call takes it away again.
///
/// The first byte of `buf` is at the place `start` of the file, in bytes from 0. The pad of a file
/// (SP 800-38A, 6.5) is the cipher of its counter blocks, 16 bytes each: `tag`, three zero bytes,
/// the number `file` in 4 bytes and the block's number from 0 in 8, the highest byte first.
///
/// A text of fewer than 256 bytes goes a block at a time, by the cipher of tables, and a longer one
/// four whole blocks at a time, where this many lie before the next multiple of 4,096. That the key
/// is expanded once a call and each block of the pad computed once is speed, which no clause
/// states.
pub fn apply_at(key: &[u8; 32], tag: u8, file: u32, start: u64, buf: &mut [u8])
    requires { start + length buf.old ≤ 4294967296 }
    ensures { buf.new ≡ xor_pad key.now tag file start buf.old }
{
    if FEW <= buf.len() {
        apply_lanes(key, tag, file, start, buf);
    } else if 0 < buf.len() {
        apply_blocks(key, tag, file, start, buf);
    }
}
