//! A store that is opened so that its updates are read again, one after the other.
//!
//! What an audit and the making of a shorter store have in common: they open a store only where all
//! its records are those of its owner, read each update again, and write nothing to its disk.
//!
//! | module | what it does |
//! |---|---|
//! | `opening` | opens the store, and says why it isn't opened |
//! | `reading` | reads an update again, and makes it in a catalogue |
//!
//! | definitions | what they say |
//! |---|---|
//! | `Opening` | what a store that was opened stands for, and why an image is refused |
//! | `Reading` | what an open store is like that is read, and what is found of an update |
//! | `KeyFiles` | what is made of the key file |
//! | `Statuses` | with which statuses a program ends that reads a store again |
#![tactic(auto)]

mod opening;
mod reading;

pub use opening::open;
pub use reading::{damaged, make, read_update};
