//! An owner's commands to a server, by the owner's book.
//!
//! The owner takes nothing from a server's replies but its epoch and whether an update was made. What is
//! intended becomes an update by the owner's own book (`ov_book`): its numbers, sets and nodes. The update
//! is written down there, and only then sent.
//!
//! [`read_own_job`] takes the words of `overctl own` apart into an [`OwnJob`], and [`own`] does it over any
//! two files, any sink, any peer and any disk:
//!
//! 1. the masters are read, and the book on the disk is begun or opened;
//! 2. where an intent is pending, only `resume` goes on;
//! 3. the bytes to be stored are read;
//! 4. Hello is asked: a store of other masters, of the other mode or at another epoch ends the call;
//! 5. the intent is written down, its update is sent at the book's epoch, with the owner's tag, and the
//!    epoch that the server tells settles it.
//!
//! A call that ends after 5 began may leave the intent pending. It is never dropped, since its tokens may be
//! out: `resume` sends it again, or settles it where the server has made it.
//!
//! | file in `specs/` | says |
//! |---|---|
//! | `Words` | which words are the line of a job |
//! | `Running` | what a call does, from its key file on |
//! | `Owning` | what is asked by a book, and what the book has then |
//! | `Endings` | how a call ends, by what it was told |
//! | `Intents` | the intent that an act is |
//! | `Printing`, `Causes` | what is put of an end; the causes of each status |
//! | `Serving` | a server that serves what the book says, and a call over it |
//!
//! `Owns` is the heart of it: it has in one record what was asked and what a crash may leave, so that both
//! are of one book. The book's disk is as it was opened, unless Hello was answered by an epoch that the book
//! expects. If the disk tells its bytes, a crash at any moment of the call leaves the book from before or
//! one with the intent, and that settled only where the server told that its update was made; and at the
//! end of a call that may have sent an Update each image that a crash may leave has its intent. A peer and
//! a disk have no clock in common, so that the intent is written before the Update is sent is said of the
//! end alone. It follows for a disk that may fail in any call: a call that sent first would end without
//! the intent where the disk fails then.
//!
//! `IsByOneBook` says what comes of that over a server that answers rightly, and whose updates come from
//! this book alone: after each call the server has the book's intents, each once, and no call ends but
//! well, refused by the machine, or for a fault.
#![tactic(auto)]

mod carrying;
mod ending;
mod intents;
mod job;
mod laws;
mod owning;
mod sending;
mod stop;
mod words;

pub use carrying::{own_intent, resume};
pub use job::{OwnAct, OwnJob};
pub use laws::{new_books_are_served, owners_files_are_enough, served_books_go_on};
pub use owning::{Owned, own};
pub use stop::OwnStop;
pub use words::read_own_job;
