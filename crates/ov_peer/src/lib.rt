//! Where frames are sent, and what answers them.
//!
//! A [`Peer`] is asked one frame and gives one: a server in this process, a server behind a link,
//! or what a test plays. An [`Answerer`] is what serves on the other side: a value whose replies
//! follow from where it began and from the updates that it accepted since. Once its disk failed in
//! an update it is *stuck*: it accepts none any more. Frames are passed without their length fields.
//!
//! What a peer was asked and answered is a relation of the peer before and after (`PeerTells` in
//! `specs/Tells`), so a call that asks several times speaks of the list of its asks (`Leads` in
//! `specs/Asks`). A peer may also *tell* which history it serves. Then each reply is a server's
//! answer at a history that goes on from the one before by what others did, and the history goes on
//! by what the request made (`Told`); a failed ask leaves one that goes on so, with the request's
//! own update or without it (`LeavesTold`). A peer behind a link tells nothing, and the same
//! clauses hold of it with nothing told.
//!
//! * [`exchange`] writes a request, asks it, and reads the answer. [`exchange_update`] does so of an
//!   Update, whose frame it makes around the update's spelling.
//! * [`AskFault`] is why an asker of an answerer, as a session has one, has no reply.
//! * [`put_frame`] puts a frame to a sink behind its length field, a short one in one call.
//! * [`Traced`] puts each frame of a peer to a sink, and tells what its peer tells.
//! * [`FixedPeer`] gives the replies that it was made with, and fails where it is told to.
//! * `&mut P` is a peer where `P` is one.
//!
//! | file in `specs/` | says |
//! |---|---|
//! | `Alone` | a peer that nobody else updates |
//! | `Asks` | lists of asks; replies of a peer that tells its history |
//! | `Causes` | a fault of the link comes only where the count of faults rose |
//! | `Disks` | which requests need the server's disk, and how a fault of it is told |
//! | `Framing` | how often a frame is put |
//! | `Exchanges` | one request, and the answer that is read |
//! | `Spellings` | which updates a list of asks made, by their spellings, and in which the disk failed |
//! | `Tells` | what the outside tells: a peer, a peer behind a `&mut`, and what answers frames |
//! | `Traced`, `Tracing`, `Fixed` | what a traced peer tells and puts; what a fixed peer replies |
#![tactic(auto)]

mod answerer;
mod asking;
mod fault;
mod fixed;
mod framing;
mod laws;
mod peer;
mod traced;

pub use answerer::{Answerer, is_accepted};
pub use asking::{exchange, exchange_update};
pub use fault::{AskFault, ExchangeFault, PeerFault};
pub use fixed::FixedPeer;
pub use framing::put_frame;
pub use laws::asks_are_told;
pub use peer::Peer;
pub use traced::Traced;
