//! The owner of a store, which holds both masters and makes updates over any peer.
//!
//! An [`Owner`] asks a server for the numbers that an update needs, seals the update under the base
//! master, and sends it at the epoch that it was told, with a tag under the surface master. Where
//! another owner was faster the server answers Stale, and the owner asks again, eight times at
//! most. A reply that is no answer to its request, or that tells an epoch lower than one told
//! before, is a [`OwnerFault::BadReply`] at its place.
//!
//! What a call asks and how it ends is an automaton over the replies (`Talks` in `specs/Talks`), by
//! what the command asks first and seals of the answer (`Errand` in `specs/Errands`). A call's
//! contract says that asks lead from the peer before to the peer after, and that they are the talk
//! of its errand with this result (`runs`). That is said of every peer. Over a peer that tells
//! which history it serves, the result is also the machine's at that history, with what others made
//! of it (`told`). Where nobody else updates that peer, a call leaves the history that it found or
//! that with its one update, want of memory and faults included (`alone`); and where that history
//! is right, it ends as the machine does, unless the server's disk, the link or a lack of memory
//! cuts it off (`complete`).
//!
//! | file in `specs/` | says |
//! |---|---|
//! | `Errands` | what each command asks first, and what is sealed of the answer |
//! | `Changes` | a [`Change`] as a command, and as what it asks and seals |
//! | `Talks` | which asks come one after the other, and with which result they end |
//! | `Calls`, `Causes` | what asks of a peer come to; why a call ends with a fault of the link |
//! | `Questions` | one question and what comes of it |
//! | `Clients` | the reader that an owner makes for a user |
//! | `Steps` | a result is the machine's, at the history of the last ask |
//! | `Alone` | asks of a server that nobody else updates, and what a call leaves of it |
//! | `Completeness` | when a call is answered |
//! | `Laws` | the laws |
//!
//! | law | function |
//! |---|---|
//! | an Accepted and a Refused are the machine's replies at the last ask | [`talks_are_steps`] |
//! | the epochs of nine stale tries rise | [`stale_epochs_rise`] |
//! | where nobody else updates, nothing was made, or this update | [`one_update_at_most`] |
//! | where nobody else updates, no reply is taken for a wrong one | [`talks_are_proper`] |
//! | the frames have few bytes beside those of command, list and file | [`talks_are_short`] |
#![tactic(auto)]

mod change;
mod client;
mod fault;
mod laws;
pub mod limits;
mod names;
mod owner;
mod question;
mod sealing;
mod sending;
mod settling;

pub use change::Change;
pub use fault::OwnerFault;
pub use laws::{
    one_update_at_most, stale_epochs_rise, talks_are_proper, talks_are_short, talks_are_steps,
};
pub use ov_wire::Welcome;
pub use owner::Owner;
