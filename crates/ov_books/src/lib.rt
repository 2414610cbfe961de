//! Which owner's book an image of a disk stands for, and what was ever given away by it: definitions and
//! laws, no code.
//!
//! A book is a list of updates, as they are encoded, of which the last may be pending (`Booked`). Its
//! records alternate: an intent, and the settling of it.
//!
//! | file in `specs/` | says |
//! |---|---|
//! | `Books` | a book as a value, its histories, and the bodies of its records |
//! | `Images` | which image keeps a book |
//! | `Damage` | what is wrong with an image that keeps none, and where |
//! | `Closures` | which base keys a user reaches over all tokens that may have been sent |
//! | `Laws` | how books go on |
//!
//! A law is a public function with an empty body, whose contract is the law.
#![tactic(auto)]

mod laws;

pub use laws::{
    an_image_keeps_one_book, base_closures_are_given, books_go_on, spelled_updates_go_on,
};
