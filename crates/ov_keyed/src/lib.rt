//! Keyed hashing: HMAC-SHA256 under keys of 32 bytes, and the comparison of two tags.
//!
//! [`mac`] is proved to be the HMAC of RFC 2104 over the SHA-256 of FIPS 180-4, for every key and
//! every message of fewer than 2^32 bytes, given in two parts. [`Pieces`] takes a message piece by
//! piece, as it comes: a value holds a message under a key, `Holds` of `specs/Holding`, and
//! `finish` gives the HMAC of each message that it holds. [`MacKey`] is a key whose two blocks are
//! hashed once for many messages. [`same`] is proved to be equality. None of them takes memory.
//!
//! Nothing is claimed of what makes a keyed hash useful: not that a tag is hard to forge, that it
//! keeps the key or the message secret, or that two messages have different tags. Nor is the time
//! of a call claimed to be independent of its bytes: `same` reads all 32 bytes of both, and no
//! contract says so.
#![tactic(auto)]

mod comparison;
mod hmac;
mod key_block;
mod mac_key;
mod pieces;

pub use comparison::same;
pub use hmac::mac;
pub use mac_key::MacKey;
pub use pieces::Pieces;
