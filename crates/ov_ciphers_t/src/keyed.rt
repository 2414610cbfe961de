//! Tags that RFC 4231 and another program give.

ghost use Rattle.std.specs.Prelude.{◌<◌};

mod vectors;

use crate::bytes::fill;
use ov_keyed::{MacKey, Pieces, mac, same};
use std::process::Abort;
use vectors::ROWS;

/// The key of 32 bytes that a shorter one is, filled with zeros.
fn key_of(rt: &impl Abort, bytes: &[u8]) -> [u8; 32] {
    assert!(rt; bytes.len() <= 32);
    let mut key = [0; 32];
    key[..bytes.len()].copy_from_slice(bytes);
    key
}

/// A key, a message, and its tag; of the fifth the first sixteen bytes alone.
const CASES: [(&[u8], &[u8], &[u8]); 5] = [
    (
        &[0x0b; 20],
        b"Hi There",
        b"\xb0\x34\x4c\x61\xd8\xdb\x38\x53\x5c\xa8\xaf\xce\xaf\x0b\xf1\x2b\x88\x1d\xc2\x00\xc9\x83\x3d\xa7\x26\xe9\x37\x6c\x2e\x32\xcf\xf7",
    ),
    (b"Jefe", b"what do ya want for nothing?", &JEFE),
    (
        &[0xaa; 20],
        &[0xdd; 50],
        b"\x77\x3e\xa9\x1e\x36\x80\x0e\x46\x85\x4d\xb8\xeb\xd0\x91\x81\xa7\x29\x59\x09\x8b\x3e\xf8\xc1\x22\xd9\x63\x55\x14\xce\xd5\x65\xfe",
    ),
    (
        b"\x01\x02\x03\x04\x05\x06\x07\x08\x09\x0a\x0b\x0c\x0d\x0e\x0f\x10\x11\x12\x13\x14\x15\x16\x17\x18\x19",
        &[0xcd; 50],
        b"\x82\x55\x8a\x38\x9a\x44\x3c\x0e\xa4\xcc\x81\x98\x99\xf2\x08\x3a\x85\xf0\xfa\xa3\xe5\x78\xf8\x07\x7a\x2e\x3f\xf4\x67\x29\x66\x5b",
    ),
    (
        &[0x0c; 20],
        b"Test With Truncation",
        b"\xa3\xb6\x16\x74\x73\x10\x0e\xe0\x6e\x0c\x79\x6c\x29\x55\x55\x2b",
    ),
];

/// The tag of RFC 4231, case 2.
const JEFE: [u8; 32] =
    *b"\x5b\xdc\xc1\x46\xbf\x60\x75\x4e\x6a\x04\x24\x26\x08\x95\x75\xc7\x5a\x00\x3f\x08\x9d\x27\x39\x83\x9d\xec\x58\xb9\x64\xec\x38\x43";

#[test]
fn rfc_4231_cases_1_to_5(rt: HostRuntime) {
    for (key, message, tag) in &CASES {
        assert!(rt; message.len() < 1000);
        let found = mac(&key_of(&rt, key), message, b"");
        assert_eq!(rt; found.get(..tag.len()), Some(*tag));
    }
}

#[test]
fn a_message_cut_anywhere_has_one_tag(rt: HostRuntime) {
    let key = key_of(&rt, b"Jefe");
    let kept = MacKey::new(&key);
    let message = b"what do ya want for nothing?";
    for cut in 0..29usize {
        let (first, second) = message.split_at(cut);
        assert_eq!(rt; mac(&key, first, second), JEFE);
        assert_eq!(rt; kept.mac(first, second), JEFE);
    }
}

#[test]
fn tags_of_another_program(rt: HostRuntime) {
    let mut message = [0u8; 512];
    fill(&mut message, 3, 7);
    for row in &ROWS {
        let mut key = [0u8; 32];
        fill(&mut key, row.start, 1);
        assert!(rt; row.length <= 512);
        let (first, second) = message[..row.length].split_at(row.length / 2);
        assert_eq!(rt; mac(&key, first, second), row.tag);
    }
}

/// The tag of a message that is given in pieces of this length, the last one shorter.
fn tag_in_pieces(key: &[u8; 32], message: &[u8], length: usize) -> [u8; 32]
    requires { 0 < length }
{
    let mut pieces = Pieces::new(key);
    for piece in message.chunks(length) {
        pieces.add(piece);
    }
    pieces.finish()
}

#[test]
fn a_message_in_pieces_of_any_length_has_one_tag(rt: HostRuntime) {
    let key = key_of(&rt, b"Jefe");
    let message = b"what do ya want for nothing?";
    for length in 1..30usize {
        assert_eq!(rt; tag_in_pieces(&key, message, length), JEFE);
    }
    let pieces: [&[u8]; 4] = [b"what do ya", b"", b" want for", b" nothing?"];
    let mut held = Pieces::new(&key);
    for piece in pieces {
        held.add(piece);
    }
    assert_eq!(rt; held.finish(), JEFE);
}

#[test]
fn one_bit_in_any_byte_makes_two_tags_differ(rt: HostRuntime) {
    let tag = [0x5a; 32];
    assert!(rt; same(&tag, &[0x5a; 32]));
    for place in 0..32usize {
        let mut other = tag;
        other[place] = 0x5b;
        assert!(rt; !same(&tag, &other));
    }
}
