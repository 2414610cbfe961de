//! The owner's book: all that the owner intended, on the owner's own disk, and what came of it.
//!
//! A [`Book`] has the catalogue of what is *settled* in memory, and at most one *pending* intent.
//! [`Book::begin`] begins an empty book where there is none, and else replays the records that an earlier
//! run left. [`Book::intend`] makes an [`Intent`] into an update, with the book's own numbers, sets and
//! nodes, and writes it down before anything may be sent; [`Book::spelling`] gives the encoding that is
//! sent; [`Book::settle`] notes that it was made. An intent is never dropped: its tokens may be out, and
//! its numbers must not come to mean something else. [`Book::settled`], [`Book::brief`] and
//! [`Book::roots`] are questions: what is settled, what is pending, and what opens all that a user may
//! read.
//!
//! **What a contract sees** is one value, `Opened` (`specs/Opened`): the disk, the masters, the settled
//! catalogue, the pending update's encoding, and whether a call of the disk failed. `Holds b s` says that
//! the open book stands for the book b (`ov_books`), and that each image which a crash may leave keeps it,
//! or once a call failed it or the next one. A clause reads 'for each book for which the old one stood';
//! [`Book::known`] hands one out. What is said of images is said where the disk tells its bytes; all else
//! holds over every disk.
//!
//! | file in `specs/` | says |
//! |---|---|
//! | `Opened` | an open book as a value, and for which book it stands |
//! | `Beginning` | why no book is begun, and what a crash in a beginning leaves |
//! | `Planning` | the update that an intent is, as its owner seals it |
//! | `Intending`, `Settling` | what an intent and a settling answer, and what they leave |
//! | `Roots` | the roots of a user |
//! | `Replaying`, `Faults` | inner: records that are replayed, and why not |
//!
//! After a fault of the disk a book takes no more: begin it again to know what is on the disk.
#![tactic(auto)]

mod begin;
mod birth;
mod book;
mod fault;
mod intend;
mod intent;
mod planning;
mod reopen;
mod replay;
mod roots;
mod sealing;
mod settle;
mod spelling;
mod waiting;

pub use begin::BookRefused;
pub use book::Book;
pub use fault::{BookBegin, IntendFault, SettleFault, SpellFault};
pub use intent::Intent;
pub use roots::Roots;
