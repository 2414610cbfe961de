//! The key schedule.

ghost use Rattle.std.specs.Prelude.{◌≡◌, ◌<◌, ◌≤◌, ◌+◌, ◌*◌, slice_index, take};
ghost use Rattle.ov_aes.specs.Field.{power_of_x};
ghost use Rattle.ov_aes.specs.KeyExpansion.{key_expansion, key_words, rot_word, sub_word, temp_word};
ghost use Rattle.ov_aes.specs.State.{add_words, word_of};

use crate::sbox::sub_byte;

/// The words of a key schedule: four for the start, and four for each of the 14 rounds.
pub type KeySchedule = [[u8; 4]; 60];

fn rot_word(a: [u8; 4]) -> [u8; 4]
    ensures { result ≡ rot_word a }
{
    [a[1], a[2], a[3], a[0]]
}

fn sub_word(a: [u8; 4]) -> [u8; 4]
    ensures { result ≡ sub_word a }
{
    [
        sub_byte(a[0]),
        sub_byte(a[1]),
        sub_byte(a[2]),
        sub_byte(a[3]),
    ]
}

fn add_words(a: [u8; 4], b: [u8; 4]) -> [u8; 4]
    ensures { result ≡ add_words a b }
{
    [a[0] ^ b[0], a[1] ^ b[1], a[2] ^ b[2], a[3] ^ b[3]]
}

const POWERS_OF_X: [u8; 7] = [0x01, 0x02, 0x04, 0x08, 0x10, 0x20, 0x40];

fn power_of_x(n: usize) -> u8
    requires { n < 7 }
    ensures { result ≡ power_of_x n }
{
    POWERS_OF_X[n]
}

fn temp_word(i: usize, previous: [u8; 4]) -> [u8; 4]
    requires from { 8 ≤ i }
    requires to { i < 60 }
    ensures { result ≡ temp_word i previous }
{
    if i % 8 == 0 {
        add_words(
            sub_word(rot_word(previous)),
            [power_of_x(i / 8 - 1), 0, 0, 0],
        )
    } else if i % 8 == 4 {
        sub_word(previous)
    } else {
        previous
    }
}

fn key_word(key: &[u8; 32], n: usize) -> [u8; 4]
    requires { n < 8 }
    ensures { result ≡ word_of (λ j. slice_index key.now (4 * n + j)) }
{
    [key[4 * n], key[4 * n + 1], key[4 * n + 2], key[4 * n + 3]]
}

// The key's eight words, and 52 words of zeros.
fn unexpanded(key: &[u8; 32]) -> KeySchedule
    ensures { take 8 result ≡ key_words key.now 8 }
{
    let mut words = [[0u8; 4]; 60];
    for n in 0..8usize {
        words[n] = key_word(key, n);
    }
    words
}

/// The 60 words of the key schedule (FIPS 197, 5.2).
pub fn expand_key(key: &[u8; 32]) -> KeySchedule
    ensures { result ≡ key_expansion key.now }
{
    let mut words = unexpanded(key);
    for i in 8..60usize {
        words[i] = add_words(words[i - 8], temp_word(i, words[i - 1]));
    }
    words
}
