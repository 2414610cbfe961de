//! What has been given away: an audit looks at one state of a store after the other, and finds which
//! files some users could ever have read, had they kept everything.
//!
//! An [`Audit`] is begun with the users whom it is about, with the epoch at which the store began,
//! and with whether the server helps them. It [sees](Audit::see) the state after each update, in
//! order. [`Audit::findings`] says at any time of each file that is exposed by which [`Cause`] it is
//! so, and since which epoch. Files that are gone count as all others do.
//!
//! It keeps no history: of each file its name, its base node and the epoch of its making, the first
//! epochs at which one of the users was in its list and at which it had no surface, and whether one
//! of them holds its base node now. A look goes through all nodes and access tokens once, and marks
//! the base nodes that one of the users holds and the surface nodes that have one of them in their
//! set (`marks`). Each file is then two marks. So what a look costs is the number of nodes, access
//! tokens and files, and how many users are asked about doesn't matter.
//!
//! **What a contract sees** is one value, `Seen`: the set of users, whether the server helps, the
//! epoch that was seen last, and the notes, each a `Note` of ov_exposure. [`Audit::see`] makes of
//! these the next ones (`AreNext`), for every list of the users, and [`Audit::findings`] gives what
//! is read off them (`findings_from`). That the notes tell of the history whose states were seen,
//! and that what is found are exactly the files which these users can read, are laws of ov_exposure.
//!
//! | file in `specs/` | says |
//! |---|---|
//! | `Seen` | an audit as a value |
//! | `Notes`, `Findings` | notes and findings of the code in the words of ov_exposure |
//! | `Marks`, `Looks` | inner: marks on nodes, and a look at a file by them |
//!
//! An audit takes a state at its word: whether updates are as their owner sealed them is for the
//! store to check.
#![tactic(auto)]

mod audit;
mod finding;
mod marks;
mod note;

pub use audit::Audit;
pub use finding::{Cause, Finding, Findings};
