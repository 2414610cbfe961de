//! The rounds of the cipher.

ghost use Rattle.std.specs.Prelude.{◌≡◌, ◌≤◌};
ghost use Rattle.ov_aes.specs.Cipher.{add_round_key, cipher, full_round, shift_rows, sub_bytes};

use crate::columns::mixed_column;
use crate::key_schedule::KeySchedule;
use crate::sbox::sub_byte;

const ROUNDS: usize = 14;

fn add_round_key(s: [u8; 16], w: &KeySchedule, round: usize) -> [u8; 16]
    requires { round ≤ ROUNDS }
    ensures { result ≡ add_round_key s w.now round }
{
    let a = w[4 * round];
    let b = w[4 * round + 1];
    let c = w[4 * round + 2];
    let d = w[4 * round + 3];
    [
        s[0] ^ a[0],
        s[1] ^ a[1],
        s[2] ^ a[2],
        s[3] ^ a[3],
        s[4] ^ b[0],
        s[5] ^ b[1],
        s[6] ^ b[2],
        s[7] ^ b[3],
        s[8] ^ c[0],
        s[9] ^ c[1],
        s[10] ^ c[2],
        s[11] ^ c[3],
        s[12] ^ d[0],
        s[13] ^ d[1],
        s[14] ^ d[2],
        s[15] ^ d[3],
    ]
}

fn full_round(s: [u8; 16], w: &KeySchedule, round: usize) -> [u8; 16]
    requires { round ≤ ROUNDS }
    ensures { result ≡ full_round s w.now round }
{
    let [a, b, c, d] = mixed_column(s[0], s[5], s[10], s[15], w[4 * round]);
    let [e, f, g, h] = mixed_column(s[4], s[9], s[14], s[3], w[4 * round + 1]);
    let [i, j, k, l] = mixed_column(s[8], s[13], s[2], s[7], w[4 * round + 2]);
    let [m, n, o, p] = mixed_column(s[12], s[1], s[6], s[11], w[4 * round + 3]);
    [a, b, c, d, e, f, g, h, i, j, k, l, m, n, o, p]
}

fn sub_and_shift(s: [u8; 16]) -> [u8; 16]
    ensures { result ≡ shift_rows (sub_bytes s) }
{
    [
        sub_byte(s[0]),
        sub_byte(s[5]),
        sub_byte(s[10]),
        sub_byte(s[15]),
        sub_byte(s[4]),
        sub_byte(s[9]),
        sub_byte(s[14]),
        sub_byte(s[3]),
        sub_byte(s[8]),
        sub_byte(s[13]),
        sub_byte(s[2]),
        sub_byte(s[7]),
        sub_byte(s[12]),
        sub_byte(s[1]),
        sub_byte(s[6]),
        sub_byte(s[11]),
    ]
}

/// The cipher of a block under a key schedule (FIPS 197, 5.1).
pub fn encrypt(w: &KeySchedule, input: &[u8; 16]) -> [u8; 16]
    ensures { result ≡ cipher w.now input.now }
{
    let mut s = add_round_key(*input, w, 0);
    for round in 1..ROUNDS {
        let next = full_round(s, w, round);
        s = next;
    }
    add_round_key(sub_and_shift(s), w, ROUNDS)
}
