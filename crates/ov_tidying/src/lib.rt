//! A shorter store: the updates of one store that don't undo each other, on a second disk.
//!
//! The contract of [`tidy`] says what it prints, what it leaves of both disks at any moment, and what
//! the second disk stands for at the end. It looks at its words, reads the key file, opens the old
//! store and reads its updates again one by one (ov_replaying), notes which of them are kept
//! (ov_tidy), begins the new store, and copies to it. It calls nothing that writes to the old disk.
//!
//! | module | what it does |
//! |---|---|
//! | `thinned` | which updates of an open store are kept |
//! | `listing` | what is printed |
//! | `written` | the new store: begun, and its updates |
//! | `tidying` | the top call, and its contract |
#![tactic(auto)]

mod listing;
mod thinned;
mod tidying;
mod written;

pub use tidying::tidy;
