//! A run: a script of commands comes in, and its reply lines go out.
//!
//! The contract of [`run`] says what it prints and sends for every script, with which status it
//! ends, and what a stop leaves. It looks at its words, reads the key file, begins the store,
//! answers the script and puts the last line, each over any source, sink and disk.
//!
//! | module | what it does |
//! |---|---|
//! | `running` | the top call, and its contract |
//! | `watched` | a key file and an output that remember how they failed |
//!
//! | definitions | what they say |
//! |---|---|
//! | `Running` | what a run promises, and from which disks |
//! | `Words` | the words that ask for a run |
//! | `Counts` | one of two counts rose |
//!
//! The parts of the promise are defined in ov_answering.
#![tactic(auto)]

mod running;
mod watched;

pub use running::run;
pub use watched::{Tried, Watched};
