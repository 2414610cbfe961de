//! The S-box on 16 bytes at a time, in a basis over the field of 16 elements.
//!
//! A byte in this basis is two elements of the field of 16, so its inverse takes a few look-ups in
//! tables of 16 entries, which a vector does for all its lanes at once. An entry or a place from
//! 128 on stands for an inverse that is not there, and gives 0.

ghost use Rattle.std.specs.Prelude.{◌≡◌, map, T as Holds};
ghost use Rattle.std.specs.Simd.Lanes.{Each1};
ghost use Rattle.ov_aes.specs.Tower.{is_place, entry_at, into_tower, one_of, out_of_tower, two_of};

use std::simd::prelude::*;

const INV: [u8; 16] = [
    0x80, 0x01, 0x08, 0x0d, 0x0f, 0x06, 0x05, 0x0e, 0x02, 0x0c, 0x0b, 0x0a, 0x09, 0x03, 0x07, 0x04,
];

const INVA: [u8; 16] = [
    0x80, 0x07, 0x0b, 0x0f, 0x06, 0x0a, 0x04, 0x01, 0x09, 0x08, 0x05, 0x02, 0x0c, 0x0e, 0x0d, 0x03,
];

const LOW: [u8; 16] = [
    0x00, 0x70, 0x2a, 0x5a, 0x98, 0xe8, 0xb2, 0xc2, 0x08, 0x78, 0x22, 0x52, 0x90, 0xe0, 0xba, 0xca,
];

const HIGH: [u8; 16] = [
    0x00, 0x4d, 0x7c, 0x31, 0x7d, 0x30, 0x01, 0x4c, 0x81, 0xcc, 0xfd, 0xb0, 0xfc, 0xb1, 0x80, 0xcd,
];

const OUT_A: [u8; 16] = [
    0x00, 0xc7, 0xbd, 0x6f, 0x17, 0x6d, 0xd2, 0xd0, 0x78, 0xa8, 0x02, 0xc5, 0x7a, 0xbf, 0xaa, 0x15,
];

const OUT_B: [u8; 16] = [
    0x00, 0x6a, 0xbb, 0x5f, 0xa5, 0x74, 0xe4, 0xcf, 0xfa, 0x35, 0x2b, 0x41, 0xd1, 0x90, 0x1e, 0x8e,
];

const ONE_A: [u8; 16] = [
    0x00, 0x3e, 0x50, 0xcb, 0x8f, 0xe1, 0x9b, 0xb1, 0x44, 0xf5, 0x2a, 0x14, 0x6e, 0x7a, 0xdf, 0xa5,
];

const ONE_B: [u8; 16] = [
    0x00, 0x23, 0xe2, 0xfa, 0x15, 0xd4, 0x18, 0x36, 0xef, 0xd9, 0x2e, 0x0d, 0xc1, 0xcc, 0xf7, 0x3b,
];

const TWO_A: [u8; 16] = [
    0x00, 0x24, 0x71, 0x0b, 0xc6, 0x93, 0x7a, 0xe2, 0xcd, 0x2f, 0x98, 0xbc, 0x55, 0xe9, 0xb7, 0x5e,
];

const TWO_B: [u8; 16] = [
    0x00, 0x29, 0xe1, 0x0a, 0x40, 0x88, 0xeb, 0x69, 0x4a, 0x23, 0x82, 0xab, 0xc8, 0x63, 0xa1, 0xc2,
];

// The entries of a table at the places of `at`.
#[inline(always)]
fn look(table: [u8; 16], at: u8x16) -> u8x16
    requires { Each1 (λ j. Holds (is_place j)) at }
    ensures { result ≡ map (entry_at table) at }
{
    u8x16::from_array(table).swizzle_dyn(at)
}

/// Each byte in the basis over the field of 16.
#[inline(always)]
pub fn enter(x: u8x16) -> u8x16
    ensures { result ≡ map into_tower x }
{
    look(LOW, x & u8x16::splat(15)) ^ look(HIGH, x >> u8x16::splat(4))
}

/// The S-box of bytes in this basis, in the standard's, but for the constant of the affine map.
#[inline(always)]
pub fn leave(y: u8x16) -> u8x16
    ensures { result ≡ map out_of_tower y }
{
    let k = y & u8x16::splat(15);
    let i = y >> u8x16::splat(4);
    let a = look(INVA, k);
    let j = i ^ k;
    let b = look(INV, i);
    let d = look(INV, j);
    let e = look(INV, b ^ a);
    let f = look(INV, d ^ a);
    let g = look(OUT_A, e ^ j);
    let h = look(OUT_B, f ^ i);
    g ^ h
}

/// The S-box of bytes in this basis, but for the constant of the affine map, and its product with
/// 2.
#[inline(always)]
pub fn within(y: u8x16) -> (u8x16, u8x16)
    ensures { result ≡ record { 0 = map one_of y; 1 = map two_of y } }
{
    let k = y & u8x16::splat(15);
    let i = y >> u8x16::splat(4);
    let a = look(INVA, k);
    let j = i ^ k;
    let b = look(INV, i);
    let d = look(INV, j);
    let e = look(INV, b ^ a);
    let f = look(INV, d ^ a);
    let ej = e ^ j;
    let fi = f ^ i;
    let g = look(ONE_A, ej);
    let h = look(ONE_B, fi);
    let m = look(TWO_A, ej);
    let n = look(TWO_B, fi);
    (g ^ h, m ^ n)
}
