//! Sessions of frames over streams, on both sides.
//!
//! A session is a stream of frames, each behind its length field, and of one answer for each. On
//! the server's side [`serve_one`] reads frames, has an [`Asker`] answer them, and writes the
//! answers in order; [`serve_each`] does so for each stream that a [`Door`] gives, one after the
//! other, with an `Answerer` that is asked by itself ([`Alone`]). On the client's side [`NetPeer`]
//! is a peer behind a stream, whatever is at its other end.
//!
//! No memory is taken between an answer and its writing, so an answer that was given is sent or
//! the session ends. Where memory is refused as a session reads on, it ends, and what was taken and
//! not asked is at most an unfinished frame and one piece behind it.
//!
//! A [`NetPeer`] takes no byte past the reply that it waits for, so nothing that comes early is
//! lost. After the first ask without a reply it answers each further one with the same fault and
//! leaves its stream alone, so that no reply which comes late is taken for another's. The buffer of a
//! reply grows by what came; that a length which was only announced takes no memory is shown by a test.
//!
//! * [`MemDoor`] is a door in memory: it gives the streams that it was made with, keeps what
//!   comes back, and fails at the calls that it is told to.
//! * [`TcpDoor`] and [`TcpLink`] are over the system's sockets, tell no bytes, and are trusted. The
//!   door tells where it listens, as the system does, and gives a [`Connection`] for each client.
//! * The streams of a door are told when their sessions are over ([`Dismiss`]), where these ran: a
//!   connection is shut then, since its door may take it back much later.
//! * A [`Gate`] is told of each request before it is asked, so that a test can hold a session
//!   there. It is told the session's number and the request's, which counts from 0 and stays at the
//!   last one of 32 bits. That it is told each once and nothing else is shown by a test.
//!
//! | file in `specs/` | says |
//! |---|---|
//! | `Exchanges`, `Asking` | what an asker tells, and what is sent for a reply |
//! | `Links` | what a stream tells |
//! | `Ends` | what a session did, for each way in which it ends |
//! | `Gates` | what a session tells its gate before it asks |
//! | `Alone` | what one answer of an answerer does |
//! | `Doors` | what a door shows, and what each call does to it |
//! | `Serving` | sessions one after the other |
//! | `Replies` | what a peer behind a stream tells, why it fails, and how it is lost |
//! | `Memory` | a door in memory |
//! | `Laws` | the same bytes end a session in the same way ([`inputs_end_one_way`]) |
#![tactic(auto)]

mod alone;
mod asker;
mod connection;
mod door;
mod each;
mod end;
mod gate;
mod laws;
mod memory;
mod one;
mod peer;
mod piece;
mod putting;
mod tcp_door;
mod tcp_stream;

pub use alone::Alone;
pub use asker::Asker;
pub use connection::Connection;
pub use door::{Dismiss, Door};
pub use each::serve_each;
pub use end::SessionEnd;
pub use gate::{Gate, OpenGate};
pub use laws::inputs_end_one_way;
pub use memory::{MemDoor, Returned};
pub use one::serve_one;
pub use peer::NetPeer;
pub use tcp_door::{SILENCE_SECONDS, TcpDoor};
pub use tcp_stream::TcpLink;
