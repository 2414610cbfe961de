//! Words that are a set of users: user n is bit `n % 64` of word `n / 64`.
ghost use Rattle.std.specs.Prelude.{◌≡◌, ◌==◌, ◌<◌, ◌≤◌, ◌*◌, ◌^◌, ◌+◌, ℕ, false, length, slice_index, take, true, drop};
ghost use Rattle.ov_base.specs.declared.limits.TheConstants.{MAX_SET_WORDS};
ghost use Rattle.ov_base.specs.Sets.{has, with, without, within, meets, union, size, IsBelow};
ghost use Rattle.ov_base.specs.Sets.{bytes_cmp, bytes_of, set_cmp, set_of_bytes};
ghost use Rattle.ov_base.specs.Words.{set_of_words};

use std::cmp::Ordering;

/// Each word has 64 bits.
fn fit(words: &[u64])
    ensures { (i : ℕ) → slice_index words.now i < 2 ^ 64 }
{}

pub fn has(words: &[u64], user: u32) -> bool
    ensures member { result ≡ has (set_of_words words.now) user }
    ensures limit { IsBelow (64 * length words.now) (set_of_words words.now) }
{
    let place = user as usize / 64;
    place < words.len() && words[place] >> (user % 64) & 1 == 1
}

pub fn with<const W: usize>(words: &[u64; W], user: u32) -> [u64; W]
    requires { user < 64 * W }
    ensures { set_of_words result ≡ with (set_of_words words.now) user }
{
    fit(words);
    let mut result = *words;
    result[user as usize / 64] |= 1 << (user % 64);
    result
}

pub fn without<const W: usize>(words: &[u64; W], user: u32) -> [u64; W]
    requires { user < 64 * W }
    ensures { set_of_words result ≡ without (set_of_words words.now) user }
{
    fit(words);
    let mut result = *words;
    result[user as usize / 64] &= !(1 << (user % 64));
    result
}

/// The words in front of zeros.
pub fn widen<const V: usize>(words: &[u64]) -> [u64; V]
    requires { length words.now ≤ V }
    ensures { set_of_words result ≡ set_of_words words.now }
{
    fit(words);
    let mut wide = [0; V];
    for i in 0..words.len() {
        wide[i] = words[i];
    }
    wide
}

pub fn unite(words: &mut [u64], other: &[u64])
    requires { length words.old ≡ length other.now }
    ensures { set_of_words words.new ≡ union (set_of_words words.old) (set_of_words other.now) }
{
    fit(words);
    fit(other);
    for i in 0..words.len() {
        words[i] |= other[i];
    }
}

pub fn are_within(words: &[u64], other: &[u64]) -> bool
    requires { length words.now ≡ length other.now }
    ensures { result ≡ within (set_of_words words.now) (set_of_words other.now) }
{
    for i in 0..words.len() {
        if words[i] & other[i] != words[i] {
            return false;
        }
    }
    true
}

pub fn do_meet(words: &[u64], other: &[u64]) -> bool
    requires { length words.now ≡ length other.now }
    ensures { result ≡ meets (set_of_words words.now) (set_of_words other.now) }
{
    for i in 0..words.len() {
        if words[i] & other[i] != 0 {
            return true;
        }
    }
    false
}

/// Whether each user of the set has a number below the limit.
pub fn are_below(words: &[u64], limit: u32) -> bool
    requires { length words.now ≤ MAX_SET_WORDS }
    ensures below { result ≡ true → IsBelow limit (set_of_words words.now) }
    ensures past { result ≡ false → IsBelow limit (set_of_words words.now) → ⊥ }
{
    for i in 0..words.len() {
        // How many users of the word, from its first on, are below the limit.
        let room = (limit as usize).saturating_sub(64 * i);
        if room < 64 && words[i] >> room != 0 {
            return false;
        }
    }
    true
}

pub fn are_same(words: &[u64], other: &[u64]) -> bool
    requires { length words.now ≡ length other.now }
    ensures { result ≡ (set_of_words words.now == set_of_words other.now) }
{
    fit(words);
    fit(other);
    words == other
}

/// The order of the bytes.
pub fn order(words: &[u64], other: &[u64]) -> Ordering
    requires { length words.now ≡ length other.now }
    ensures bytes { let count = 8 * length words.now in
        result ≡ bytes_cmp count (set_of_words words.now) (set_of_words other.now) }
    ensures order { result ≡ set_cmp (set_of_words words.now) (set_of_words other.now) }
{
    for i in 0..words.len() {
        if words[i] != other[i] {
            return words[i].to_le_bytes().cmp(&other[i].to_le_bytes());
        }
    }
    Ordering::Equal
}

pub fn count(words: &[u64]) -> u32
    requires { length words.now ≤ MAX_SET_WORDS }
    ensures size { result ≡ size (set_of_words words.now) }
    ensures limit { result ≤ 64 * length words.now }
{
    let mut count = 0;
    for word in words {
        // Users are numbered from 0, so most words of most sets are 0.
        if *word != 0 {
            count += word.count_ones();
        }
    }
    count
}

pub fn write(words: &[u64], out: &mut [u8])
    requires { length out.old ≡ 8 * length words.now }
    ensures bytes { out.new ≡ bytes_of (8 * length words.now) (set_of_words words.now) }
    ensures whole { set_of_bytes out.new ≡ set_of_words words.now }
{
    for i in 0..out.len() {
        out[i] = words[i / 8].to_le_bytes()[i % 8];
    }
}

fn word_at(bytes: &[u8], i: usize) -> u64
    requires { 8 * i + 8 ≤ length bytes.now }
    ensures { result ≡ set_of_bytes (take 8 (drop (8 * i) bytes.now)) }
{
    let (_, rest) = bytes.split_at(8 * i);
    u64::from_le_bytes([
        rest[0], rest[1], rest[2], rest[3], rest[4], rest[5], rest[6], rest[7],
    ])
}

pub fn read(bytes: &[u8], words: &mut [u64])
    requires { length bytes.now ≡ 8 * length words.old }
    ensures { set_of_words words.new ≡ set_of_bytes bytes.now }
{
    for i in 0..words.len() {
        words[i] = word_at(bytes, i);
    }
}
