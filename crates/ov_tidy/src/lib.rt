//! A shorter store: which updates of a store are kept, and a copy of those.
//!
//! A grant and a revocation that undid each other and left nothing behind are an *idle pair*, and a
//! store without its idle pairs has the same lists, keys and epoch (ov_thinning). A [`Thin`] takes
//! the updates of a store one after the other and says which are kept. It has a catalogue, the
//! places of the updates that are kept, and one note for each file, which tells whether the next
//! update of this file ends an idle pair. So an update costs what it costs a catalogue; a grant or a
//! revocation has its sets looked up besides, and where a pair ends, the place of its first member is
//! found by halves.
//!
//! [`copy`] reads the kept updates again from the old store and makes them in a new one, which begins
//! so much later that it ends at the same epoch. Of a file that is gone by the end the old store has
//! no bytes: it is made with zeros under its own tag, and a later update removes or replaces it
//! again. What a crash leaves of the new store is always the first updates of one copy.
//!
//! | module | what it does |
//! |---|---|
//! | `thin` | the updates that are taken, and the places of those that are kept |
//! | `naming` | what an update does to files |
//! | `note` | what is noted of a file |
//! | `looking` | what is looked at before an update is made |
//! | `marks` | what an update leaves in the notes |
//! | `places` | the places that are kept, in order |
//! | `copying` | the copy of the updates that are kept |
//! | `agreeing` | laws of histories that differ in files that are gone |
//!
//! | definitions | what they say |
//! |---|---|
//! | `Thins` | what a [`Thin`] answers, in the words of ov_thinning |
//! | `Agreeing` | histories whose updates are the same one by one, but for files that are gone |
//! | `Copies` | what [`copy`] answers, and what a crash leaves |
#![tactic(auto)]

mod agreeing;
mod copying;
mod looking;
mod marks;
mod naming;
mod note;
mod places;
mod thin;

pub use agreeing::{agreeing_goes_one_by_one, copies_are_right};
pub use copying::{CopyFault, copy};
pub use thin::Thin;
