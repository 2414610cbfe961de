//! What an owner, a reader and a server send each other.
//!
//! A stream is frames, each behind a length field of four bytes; [`Decoder`] cuts one into frames,
//! whatever the pieces it comes in: fed with pieces one after the other, it does what it does with
//! them joined. No frame behind its length field is the front of another's
//! ([`frames_are_told_apart`]). A frame is a [`Request`] or an [`Answer`]: a kind byte and fields.
//! [`read_request`] reads a frame exactly where it is the one spelling of a request
//! (`request_bytes` in `specs/Requests`), and [`read_answer`] exactly where it is the spelling of
//! an answer to the request that was sent (`answer_bytes` in `specs/AnswerBytes`, `IsAnswer` in
//! `specs/AnswersTo`), as far as the two decide it. Elsewhere they name a place, which
//! `specs/RequestReading` and `specs/AnswerReading` give row by row: the first field that nothing
//! in the grammar continues, or the end. Two laws say of it that the bytes before it go on to a
//! request or an answer, and that they don't with the field at it ([`bad_requests_are_placed`],
//! [`bad_answers_are_placed`]; `IsWrongPlace` in ov_fields). [`write_request`] appends a request's
//! spelling, [`update_frame`] makes that of an Update around the update's own, so that a file's
//! bytes aren't copied, and [`write_answer`] puts an answer's in place of what was there. An answer
//! within the limits of a store (`HasAnswerForm` in `specs/AnswerForm`) fits a frame, and is read as
//! itself or not at all, whatever was asked ([`answers_are_read_alike`]).
//!
//! An update's spelling and a catalogue entry are in frames as they are. Where they end, or what is
//! wrong with them, is found by the definitions of `specs/Updates` and `specs/Entries`; the law
//! that the former agree with ov_record's is ov_model's.
#![tactic(auto)]

mod advancing;
mod answer;
mod answer_bodies;
mod answer_reading;
mod answer_writing;
mod chains;
mod cutting;
mod decoder;
mod entries;
mod fault;
mod form;
pub mod kinds;
mod laws;
mod names;
mod refusals;
mod request;
mod request_reading;
mod request_writing;
mod state;
mod update;

pub use answer::{Answer, Chained, Known, Plan, Welcome};
pub use answer_reading::read_answer;
pub use answer_writing::write_answer;
pub use decoder::Decoder;
pub use fault::{FeedFault, WireFault};
pub use laws::{
    answers_are_read_alike, answers_fit_frames, bad_answers_are_placed, bad_requests_are_placed,
    frames_are_told_apart, requests_fit_frames,
};
pub use request::{Question, Request};
pub use request_reading::read_request;
pub use request_writing::{update_frame, write_request};
