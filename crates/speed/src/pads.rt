//! Pads beside another implementation: `tools/pad_vectors.py` computes the same numbers by OpenSSL.

ghost use Rattle.std.specs.Prelude.{ℕ, ◌≤◌, ◌<◌, ◌+◌};

use ov_aes::Aes256;
use ov_ctr::apply_at;
use sha2::{Digest, Sha256};

const LONGEST: usize = 4200;

const LAST_START: usize = 300;

// Numbers that a script makes as well: the upper half of a linear congruence.
#[derive(Drop)]
struct Numbers {
    state: u64,
}

impl Numbers {
    fn next(&mut self) -> u32 {
        self.state = self
            .state
            .wrapping_mul(6364136223846793005)
            .wrapping_add(1442695040888963407);
        (self.state >> 32) as u32
    }

    fn byte(&mut self) -> u8 {
        (self.next() >> 24) as u8
    }

    fn key(&mut self) -> [u8; 32] {
        let mut key = [0u8; 32];
        for i in 0..32usize {
            key[i] = self.byte();
        }
        key
    }
}

fn first_bytes(digest: &[u8; 32]) -> usize {
    let [a, b, c, d, e, f, g, h, ..] = *digest;
    u64::from_be_bytes([a, b, c, d, e, f, g, h]) as usize
}

// The pad of one random cut, of up to 1,023 bytes.
fn add_cut(numbers: &mut Numbers, hasher: &mut Sha256) {
    let key = numbers.key();
    let tag = numbers.byte();
    let file = numbers.next();
    let length = (numbers.next() % 1024) as usize;
    let start = u64::from(numbers.next()).min(4294967296 - length as u64);
    let mut bytes = [0u8; 1024];
    let piece = &mut bytes[..length];
    apply_at(&key, tag, file, start, piece);
    hasher.update(piece);
}

/// The pads of this many random cuts, each under a key of its own: the first bytes of their digest.
pub fn cuts(count: u32) -> usize {
    let mut numbers = Numbers { state: 1 };
    let mut hasher = Sha256::new();
    for _ in 0..count {
        add_cut(&mut numbers, &mut hasher);
    }
    first_bytes(&hasher.finalize())
}

// The pad of one file from its first byte on, by the plain cipher.
fn plain_pad(key: &[u8; 32], tag: u8, file: u8) -> [u8; 4608] {
    let aes = Aes256::new(key);
    let mut pad = [0u8; 4608];
    for number in 0..288usize {
        let high = (number / 256) as u8;
        let low = (number % 256) as u8;
        let block = aes.block(&[tag, 0, 0, 0, 0, 0, 0, file, 0, 0, 0, 0, 0, 0, high, low]);
        for i in 0..16usize {
            pad[16 * number + i] = block[i];
        }
    }
    pad
}

/// The first bytes of the digest of the pad by the plain cipher.
pub fn plain() -> usize {
    let pad = plain_pad(&[7; 32], b'B', 2);
    let mut hasher = Sha256::new();
    hasher.update(&pad);
    first_bytes(&hasher.finalize())
}

fn equals_plain(pad: &[u8; 4608], start: usize, length: usize) -> bool
    requires start { start ≤ 300 }
    requires length { length ≤ 4200 }
{
    let mut bytes = [0u8; 4200];
    let piece = &mut bytes[..length];
    apply_at(&[7; 32], b'B', 2, start as u64, piece);
    bytes[..length] == pad[start..start + length]
}

/// The pad over 4,096 bytes, 16,384 times: then they are zeros again.
pub fn pages() -> usize {
    let mut bytes = [0u8; 4096];
    for _ in 0..16_384u16 {
        apply_at(&[7; 32], b'B', 2, 0, &mut bytes);
    }
    bytes.iter().filter(|byte| **byte == 0).count()
}

/// The pad over 64 bytes, too few for four blocks at a time, 1,048,576 times.
pub fn short() -> usize {
    let mut bytes = [0u8; 64];
    for _ in 0..1_048_576u32 {
        apply_at(&[7; 32], b'B', 2, 0, &mut bytes);
    }
    bytes.iter().filter(|byte| **byte == 0).count()
}

/// How many calls of all lengths to 4,200 at all starts to 300 give that pad.
pub fn starts() -> usize {
    let pad = plain_pad(&[7; 32], b'B', 2);
    let mut equal = 0usize;
    for start in 0..=LAST_START {
        for length in 0..=LONGEST {
            if equals_plain(&pad, start, length) {
                equal = equal.wrapping_add(1);
            }
        }
    }
    equal
}
