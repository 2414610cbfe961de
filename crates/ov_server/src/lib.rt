//! The server: a store that answers frames.
//!
//! A [`Server`] is a store that outlasts stops (`ov_store`), and the surface master under which it
//! is kept. [`Server::answer`] answers a frame in place of what was in the reply, and is the one
//! call that changes what is shown: it makes the update that it accepts. Of a Cover or a Replan it
//! keeps the plan that it told, which no contract shows. A [`LocalPeer`] is a server in this process
//! as a peer, which tells which history it serves where its disk tells its bytes; a server is an
//! [`ov_peer::Answerer`] too.
//!
//! ```text
//! frame ── read_request ──► Hello, Ask, Cover, Replan,
//!                       │   Chain, Page, List   by the catalogue alone
//!                       ├─► Chunk    NoFile, Moved, DeviceFault, Bytes
//!                       └─► Update   the owner's tag, the epoch, the store: a disk that failed
//!                                    before, refusal, plan, disk
//! ```
//!
//! **What a contract sees** is the store (`Opened` of ov_store), and what it is answered by is
//! `serving_of` of that: the catalogue, the stored bytes where the disk tells its bytes, the
//! surface master and the check value of the base master (`Serving` of ov_protocol).
//!
//! * The reply is the one of ov_protocol's `AnswersFrame` at what the server shows, which then goes
//!   on by what it made (`IsAnswered`); so what is accepted lasts on the disk. Or it is
//!   `DeviceFault` (`IsFaulted`), and what is shown stays: to an update that needs the disk exactly
//!   where a call of the disk failed in it or in an earlier one.
//! * A crash at any moment of the call leaves a history for which the server stood, or this with
//!   the request's update (`LeavesAsked`).
//! * An answer that makes nothing writes nothing: a question for stored bytes that are there may
//!   read the disk, and all else stays. Any other question leaves the very same server.
//! * All memory is taken before the disk is asked. Where it is refused all is as it was.
//!
//! | file in `specs/` | says |
//! |---|---|
//! | `Answering` | what is answered to a frame, and what is left on the disk |
//! | `Following` | how a server goes on from where it began, for `Answerer` |
//! | `Locally` | what a server in this process tells: nobody else updates it |
//! | `Telling` | inner: answers made of what a state tells |
//!
//! Nothing is claimed of who asks: an update is the owner's by its tag alone.
#![tactic(auto)]

mod answerer;
mod answering;
mod asking;
mod chaining;
mod chunking;
mod covering;
mod form;
mod laws;
mod listing;
mod local;
mod paging;
mod reply;
mod server;
mod updating;

pub use laws::asks_are_alone;
pub use local::LocalPeer;
pub use server::Server;
