//! Values from outside: the standards' examples, and blocks from another implementation.

mod vectors;

use ov_aes::{Aes256, LaneAes256};
use vectors::BLOCKS;

/// The key of FIPS 197, C.3.
const COUNTED: [u8; 32] =
    *b"\x00\x01\x02\x03\x04\x05\x06\x07\x08\x09\x0a\x0b\x0c\x0d\x0e\x0f\x10\x11\x12\x13\x14\x15\x16\x17\x18\x19\x1a\x1b\x1c\x1d\x1e\x1f";

/// The key of SP 800-38A, F.5.5.
const EXAMPLE: [u8; 32] =
    *b"\x60\x3d\xeb\x10\x15\xca\x71\xbe\x2b\x73\xae\xf0\x85\x7d\x77\x81\x1f\x35\x2c\x07\x3b\x61\x08\xd7\x2d\x98\x10\xa3\x09\x14\xdf\xf4";

#[test]
fn fips_197_c_3(rt: HostRuntime) {
    let input = 0x00112233445566778899aabbccddeeffu128.to_be_bytes();
    let output = Aes256::new(&COUNTED).block(&input);
    assert_eq!(rt;
        u128::from_be_bytes(output),
        0x8ea2b7ca516745bfeafc49904b496089
    );
}

#[test]
fn sp_800_38a_f_5_5(rt: HostRuntime) {
    let counter = 0xf0f1f2f3f4f5f6f7f8f9fafbfcfdfeffu128.to_be_bytes();
    let pad = u128::from_be_bytes(Aes256::new(&EXAMPLE).block(&counter));
    assert_eq!(rt; pad, 0x0bdf7df1591716335e9a8b15c860c502);
    assert_eq!(rt;
        pad ^ 0x6bc1bee22e409f96e93d7e117393172a,
        0x601ec313775789a5b7a7f504bbf3d228
    );
}

/// A front, the last byte of the first of four blocks, and the four. The three blocks of F.5.5
/// after the carry, and the last one before it; the others are OpenSSL's.
const FOURS: [(u128, u8, [u128; 4]); 2] = [
    (
        0xf0f1f2f3f4f5f6f7f8f9fafbfcfdff80,
        0x00,
        [
            0x5a6e699d536119065433863c8f657b94,
            0x1bc12c9c01610d5d0d8bd6a3378eca62,
            0x2956e1c8693536b1bee99c73a31576b6,
            0x8b77ffe0d97c0992d7f70e1ce9cfc3b7,
        ],
    ),
    (
        0xf0f1f2f3f4f5f6f7f8f9fafbfcfdfe00,
        0xfc,
        [
            0xfa57604db8f6dc87e4d3a4b2debd2450,
            0x3b328760f7354f3fd25dc4e65843d5e3,
            0xcb67868d25fb8247e654d47756255d80,
            0x0bdf7df1591716335e9a8b15c860c502,
        ],
    ),
];

#[test]
fn four_blocks_of_a_front_with_another_last_byte(rt: HostRuntime) {
    let aes = LaneAes256::new(&EXAMPLE);
    for (front, last, outputs) in &FOURS {
        assert!(rt; *last <= 252);
        let blocks = aes.four_blocks(&aes.front(&front.to_be_bytes()), *last);
        for (block, output) in blocks.iter().zip(outputs) {
            assert_eq!(rt; u128::from_be_bytes(block.to_array()), *output);
        }
    }
}

#[test]
fn blocks_of_another_implementation(rt: HostRuntime) {
    for vector in &BLOCKS {
        let aes = Aes256::new(&vector.key);
        let output = aes.block(&vector.input.to_be_bytes());
        assert_eq!(rt;
            u128::from_be_bytes(output),
            vector.output,
            "at {:x}",
            vector.input
        );
    }
}

#[test]
fn four_blocks_of_another_implementation(rt: HostRuntime) {
    for vector in &BLOCKS {
        let aes = LaneAes256::new(&vector.key);
        let input = vector.input.to_be_bytes();
        let front = aes.front(&input);
        for place in 0..4u8 {
            let Some(last) = input[15].checked_sub(place) else {
                continue;
            };
            if last <= 252 {
                let output = aes.four_blocks(&front, last)[place as usize].to_array();
                assert_eq!(rt; u128::from_be_bytes(output), vector.output, "at {place}");
            }
        }
        assert_eq!(rt; u128::from_be_bytes(aes.block(&input)), vector.output);
    }
}
