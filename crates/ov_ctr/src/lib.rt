//! Counter mode over AES-256 (SP 800-38A, 6.5): the pad of a file, over any part of it.
//!
//! Contract: [`apply_at`] replaces each byte by itself XOR the pad's byte at its place, where the
//! pad is the cipher of the counter blocks of the file, and the first byte is at the place `start`.
//! A text of fewer than 256 bytes goes a block at a time, by tables, and a longer one four blocks
//! at a time.
//!
//! What this isn't: there is no claim of secrecy or of constant time, and nothing here finds a
//! changed byte. A pad covers one text only: two texts under one key, tag and file number give away
//! their difference. The key schedule and the bytes beside groups of four blocks are looked up in
//! tables, which leaks through the processor's caches.
#![tactic(auto)]

mod apply;
mod counter;
mod four;
mod laws;

pub use apply::apply_at;
pub use laws::{keeps_length, takes_parts, undoes_itself};
