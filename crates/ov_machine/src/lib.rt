//! The access-matrix machine over frames: an owner, and the server that it asks, over a store.
//!
//! [`Machine::step`] answers one command. Over a disk that tells its bytes it makes what the
//! definition's step makes of the history that is kept, and puts each frame that is asked and replied
//! for it to a sink, the trace. Where a command isn't answered, [`StepFault`] says why, and such a
//! disk has the history from before the command or from after it.
//!
//! Over a disk that doesn't tell its bytes, what is kept still goes on as the definition's step does,
//! and the reply to each command but a read is the definition's. Nothing is said there of the bytes
//! that a read gives, of the trace, or of what the disk has after a crash.
//!
//! A contract sees a machine as [`KeptOn`](../specs/Machine.antt): the two masters, the catalogue,
//! the stored bytes where the disk tells them, the disk on which they last, and whether a call of
//! the disk failed in an update. All that one step does is the record `IsWholeStep` of `specs/Steps`.
//!
//! | module | what it does |
//! |---|---|
//! | `machine` | the machine, and one step of it |
//! | `changing` | updates, by the owner |
//! | `questions` | epochs and lists, by the owner; reads, by the reader that it makes |
//! | `replying` | the reply to a command, by what was answered |
//! | `kept_loans` | calls over a traced server, by which the trace stays lent |
//! | `fault` | why a command isn't answered |
//!
//! | definitions | what they say |
//! |---|---|
//! | `Machine`, `Steps` | what is kept, for which history it stands, and one step |
//! | `Disks` | which images keep a history, and a disk that holds one |
//! | `Frames`, `Sinks` | what a command puts to the trace; what is put to a sink |
//! | `Replying` | the reply by an answer |
//! | `Seats` | inside: a server that is asked with a trace |
#![tactic(auto)]

mod changing;
mod fault;
mod kept_loans;
mod machine;
mod questions;
mod replying;

pub use fault::{BadTag, StepFault};
pub use machine::Machine;
