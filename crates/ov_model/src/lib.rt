//! Definitions and laws that join crates: the access-matrix machine over scripts, and how frames
//! relate to records.
//!
//! This crate has no code. Histories and the matrix that they make are those of ov_history. A law
//! is a public function with an empty body, whose contract is the law.
//!
//! | file in `specs/` | says |
//! |---|---|
//! | `Step` | the reply to a command at a history, and the history after it |
//! | `Lines` | the reply lines of a list of commands, one behind the other |
//! | `Alike` | that histories by which one sealed history is right are answered alike |
//! | `Since` | what commands leave but for files that were gone before them |
//! | `Agreement` | that records and frames spell an update alike |
//! | `Streams` | that a stream is cut into frames in one way |
//!
//! The contract of the program's `run` is stated in the words of the first two: what the store
//! promises, with no store in sight.
#![tactic(auto)]

mod frames;
mod machine;

pub use frames::{frames_hold_spellings, frames_take_updates, streams_are_cut_one_way};
pub use machine::{
    a_refusal_changes_nothing, an_update_raises_the_epoch, legal_histories_go_on,
    right_histories_answer_alike, sealed_forms_are_right_after_commands,
};
