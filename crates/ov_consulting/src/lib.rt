//! Questions to the owner's book, which ask no server.
//!
//! A server may lie about nodes and lists, and a key line that is made of its answer opens what its
//! reader wasn't given. The owner's book (`ov_book`) has the owner's own history, and answers from that:
//! there is no peer in the signature of [`consult`], so nothing of a reply can be in what it gives.
//!
//! [`read_book_job`] takes the words of `overctl book` apart into a [`BookJob`], and [`consult`] does it over
//! any key file, any sink and any disk:
//!
//! 1. the masters are read;
//! 2. a disk on which no book was begun ends the call: none is begun by a question;
//! 3. the book is opened, and its settled history answers;
//! 4. the answer, or the line on why there is none, is put.
//!
//! | [`Question`] | answer |
//! |---|---|
//! | `key` | the key line of a user, by the user's own roots in the settled history |
//! | `list`, `users`, `files` | as `overctl` prints them, of the settled history |
//! | `epoch` | `epoch N`, the number of settled intents |
//! | `pending` | `pending N` and the words of the update that isn't settled, or `settled N` |
//!
//! | file in `specs/` | says |
//! |---|---|
//! | `Words` | which words are the line of a job |
//! | `Answers`, `Pending` | what a book says to a question |
//! | `Consulting` | what comes of a question, and that nothing is written |
//! | `Endings`, `Printing` | why there is no answer; what is put, and the status |
//! | `Saying`, `Gathering` | inner: what an open book says; files gathered one by one |
//!
//! What is said of the disk's image, and that nothing is written, is said where the disk tells its bytes.
//! Over any disk the answer is that of some book of the mode, and a question whose key file has no masters
//! leaves the disk as it is.
#![tactic(auto)]

mod answering;
mod consulting;
mod ending;
mod job;
mod lines;
mod names;
mod pending;
mod stop;
mod telling;
mod words;

pub use consulting::{Consulted, consult};
pub use job::{BookJob, Question};
pub use stop::BookStop;
pub use words::read_book_job;
