//! The surface layer: which files have one, and how it is laid and changed.
//!
//! A file has two coats. The owner lays the base coat before the file is sent ([`base_encrypt`]);
//! the server lays the surface coat over what it received ([`over_encrypt`]), and takes one surface
//! off and lays the next where the file's surface changes ([`reencrypt`]), without the base key and
//! with no file sent again. Each is a pad of counter mode (`ov_ctr`) under a tag byte of its own,
//! `B` or `S`, and the file's number. The bytes may be any part of the file, from any place on.
//!
//! [`wanted`] is the rule of both modes: which set of users a file's surface should have, if any.
//! [`file_tag`] is the tag of a file's plaintext, by which a reader knows that it is whole.
//!
//! `specs/Wanted`, `specs/Coats` and `specs/Tags` say what each of these is. The laws of
//! `specs/Laws` are that coats come off, commute, keep the length and may be laid in parts; each is
//! the contract of a function that does nothing.
//!
//! Nothing is claimed of secrecy, and the two coats hide nothing from anyone who holds both keys.
#![tactic(auto)]

mod coats;
mod laws;
mod rule;
mod tag;

pub use coats::{base_encrypt, over_encrypt, reencrypt};
pub use laws::{both_come_off, coats_come_off, coats_commute, coats_keep_length, coats_take_parts};
pub use rule::wanted;
pub use tag::file_tag;
