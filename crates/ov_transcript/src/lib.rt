//! What is sent for each command: its transcript.
//!
//! This crate has definitions and laws, and no code. The *transcript* of a command at a history is
//! the list of its requests, each with the reply of a server of that history, in turn, ending at
//! the first Refused. Which requests these are follows from the two masters and from the history
//! without the bytes of its files. An enrolment, a grant, a revocation and a removal ask for
//! numbers and send an update; a creation asks for the plan of its list, and a replacement for that
//! of its file's list, and each sends an update with the new file; a read asks for the numbers of
//! the user's keys, for the chains to the file, and for each of its chunks; a list and an epoch are
//! one question.
//!
//! | file in `specs/` | says |
//! |---|---|
//! | `Transcripts` | the requests of each command, its transcript, and fronts of it |
//! | `Talking` | what is put of an ask that failed; calls that were answered |
//! | `Bytes` | histories that differ in the bytes of their files alone |
//! | `Laws` | the laws |
//!
//! A law is a public function with an empty body, whose contract is the law.
//!
//! | law | function |
//! |---|---|
//! | an owner's call sends its command's transcript, or a front | [`updates_are_transcribed`] |
//! | a question sends its command's transcript, or a front | [`questions_are_transcribed`] |
//! | a read sends its transcript, or a front | [`reads_are_transcribed`] |
//! | a command has one transcript, and a run has one | [`transcripts_are_unique`] |
//! | no update sends bytes of files but its own, and all are short | [`transcripts_are_short`] |
#![tactic(auto)]

mod laws;

pub use laws::{
    questions_are_transcribed, reads_are_transcribed, transcripts_are_short,
    transcripts_are_unique, updates_are_transcribed,
};
