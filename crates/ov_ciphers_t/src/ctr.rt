//! Values from another implementation, and calls that the vectors leave out.

mod callers;
mod sums;
mod vectors;

use crate::bytes::fill;
use callers::{apply_in_two, apply_twice};
use ov_ctr::apply_at;
use sums::SUMS;
use vectors::PADS;

/// The text whose byte `i` is `31 i + 7` modulo 256.
fn text() -> [u8; 48] {
    let mut text = [0u8; 48];
    fill(&mut text, 7, 31);
    text
}

#[test]
fn pads_of_another_implementation(rt: HostRuntime) {
    for vector in &PADS {
        let mut bytes = text();
        let count = vector.after.len();
        assert!(rt; count <= 48 && vector.start <= 4294967296 - count as u64);
        let part = &mut bytes[..count];
        apply_at(&vector.key, vector.tag, vector.file, vector.start, part);
        assert_eq!(rt;
            &bytes[..count],
            vector.after,
            "at {} of {}",
            vector.start,
            vector.file
        );
    }
}

// The FNV-1a sum of these bytes.
fn sum_of(bytes: &[u8]) -> u64 {
    let mut sum = 0xcbf29ce484222325u64;
    for byte in bytes {
        sum = (sum ^ u64::from(*byte)).wrapping_mul(0x100000001b3);
    }
    sum
}

#[test]
fn sums_of_another_implementation(rt: HostRuntime) {
    let mut text = [0u8; 4100];
    fill(&mut text, 7, 31);
    for vector in &SUMS {
        assert!(rt; vector.length <= 4100 && vector.start <= 1048576);
        let mut bytes = text;
        let part = &mut bytes[..vector.length];
        apply_at(&[9; 32], 1, 2, vector.start, part);
        assert_eq!(rt;
            sum_of(part),
            vector.sum,
            "{} at {}",
            vector.length,
            vector.start
        );
    }
}

#[test]
fn a_whole_is_its_parts(rt: HostRuntime) {
    let key = [9u8; 32];
    let mut whole = text();
    apply_at(&key, 1, 2, 0, &mut whole[..17]);
    let mut parts = text();
    apply_in_two(&key, 1, 2, 15, &mut parts[..17]);
    assert_eq!(rt; whole, parts);
}

#[test]
fn the_pad_undoes_itself(rt: HostRuntime) {
    let mut bytes = text();
    apply_twice(&[9u8; 32], 1, 2, &mut bytes);
    assert_eq!(rt; bytes, text());
}
