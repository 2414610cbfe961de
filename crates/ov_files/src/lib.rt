//! What the three programs ask of the system: the words behind their names, the places of standard
//! streams, the files that they write, and what it says of the files that the words name: why one
//! can't be used as a file of a store, whether a store was begun in one, and in which format, and
//! whether others may read it.
//!
//! | module | what it does |
//! |---|---|
//! | `words`, `places` | the words; no file in the place of a standard stream |
//! | `own` | a program's own files, opened so that nothing else is lost by it |
//! | `faults`, `stores`, `readers` | what standard error is told of a file |
//! | `identity`, `locks` | which file has a name, and whether somebody has it |
//!
//! What the system answers is trusted, so no function here has a contract.
#![tactic(auto)]

mod faults;
mod identity;
mod locks;
mod own;
mod places;
mod readers;
mod stores;
mod words;

pub use faults::{FileFault, fault_of, folder_of};
pub use own::OwnFiles;
pub use places::{HeldPlaces, NOTHING, hold_places};
pub use readers::is_open_to_others;
pub use stores::{begins, is_of_first_format};
pub use words::words_of;
