//! The block cipher AES-256 (FIPS 197), forwards only: one block at a time, or four.
//!
//! Contract: for every key and every block, [`Aes256::block`] and [`LaneAes256::block`] return the
//! standard's cipher of the block under the key, and [`LaneAes256::four_blocks`] that of each of
//! four blocks that differ in their last byte. A contract sees each type as its key.
//!
//! What this isn't: there is no claim of secrecy, of a mode of operation, or of constant time. The
//! key schedule and single blocks look secret bytes up in tables, so the time of a call leaks
//! through the processor's caches, and keys aren't wiped from memory.
#![tactic(auto)]

mod cipher;
mod columns;
mod front;
mod key_schedule;
mod lanes;
mod rounds;
mod row_blocks;
mod row_cipher;
mod row_keys;
mod row_rounds;
mod row_steps;
mod sbox;
mod tower;
mod weights;

pub use cipher::Aes256;
pub use front::Front;
pub use lanes::LaneAes256;
pub use row_blocks::Blocks;
