//! Updates of a store, and catalogue entries, as bytes.
//!
//! An [`Update`] is one change of a store: what its owner sends, and what its journal keeps. A
//! contract sees it by `sealed_update` of `specs/Updates`, as a value that knows nothing of the
//! width of the set in it. A [`Form`] says how updates are spelled: with how many words in a set,
//! with which limits of a creation or a replacement, and whether with removals and replacements,
//! which the second form alone has. Frames and new records are in the form of the second format,
//! [`Form::SECOND`], and records of older stores in that of the first, [`Form::FIRST`]; both have
//! room in their fields, and the records of both fit ([`forms_have_room`]). In each form an update
//! has one spelling (`spelling` in `specs/Spelling`): [`into_spelling`] gives it, and [`read_whole`]
//! gives the update exactly where the bytes are its spelling. Both leave a file's bytes in the list
//! in which they came, so that no second one is made. Elsewhere `read_whole` names the place of the
//! first field that no spelling continues, or the end, as `specs/Reading` says: what stands before
//! the place goes on to a spelling, and with the field at it none does
//! ([`bad_updates_are_placed`]). No spelling is the front of another's
//! ([`updates_are_spelled_apart`]), and each fits a record where the longest of its form does, as
//! that of the first ([`spellings_fit_records`]).
//!
//! A store that keeps the bytes of its files apart from its records spells an update as a
//! [`Brief`], which ends before those bytes, and then the first block of each file whose stored
//! bytes are new: [`Stored`], by `specs/Stored`. [`read_brief`] gives the update at the front and
//! how many bytes spell it, by which a caller learns how many first blocks follow; [`read_stored`]
//! gives the record with as many, and [`write_stored`] appends it. Both readers name the place of
//! the first field that no such spelling continues, or the end ([`bad_fronts_are_placed`],
//! [`bad_records_are_placed`]). An update's spelling is that of its brief, and then the bytes of
//! its file ([`briefs_begin_spellings`]). The laws of these spellings are as those above.
//! `ov_updating` writes such records, and `ov_placed` reads them. A brief that was read in the one
//! form is, after [`Brief::widen`], the same update in a wider one ([`wider_forms_have_all`]). So
//! [`read_front`] and [`read_record`] read the records of either [`Format`] in one width.
//!
//! [`user_entry`], [`node_entry`], [`access_entry`] and [`file_entry`] append entries of the public
//! catalogue, by `specs/Entries` of ov_fields.
//!
//! W is from 1 to `MAX_SET_WORDS`, and a set then has `8 * W` bytes; a store's have `SET_WORDS`.
#![tactic(auto)]

mod brief;
mod entries;
mod fault;
mod formats;
mod forms;
mod laws;
mod pieces;
mod reading;
mod stored;
mod stored_reading;
mod stored_writing;
mod update;
mod within;
mod writing;

pub use brief::Brief;
pub use entries::{access_entry, file_entry, node_entry, user_entry};
pub use fault::RecordFault;
pub use formats::{Format, read_front, read_record};
pub use forms::Form;
pub use laws::{
    bad_fronts_are_placed, bad_records_are_placed, bad_updates_are_placed, briefs_are_read,
    briefs_are_spelled_apart, briefs_begin_spellings, forms_are_known, forms_have_room,
    records_are_read, records_are_spelled_apart, records_fit, spellings_are_read,
    spellings_fit_records, updates_are_spelled_apart, wider_forms_have_all,
};
pub use reading::read_whole;
pub use stored::Stored;
pub use stored_reading::{read_brief, read_stored};
pub use stored_writing::write_stored;
pub use update::Update;
pub use writing::into_spelling;
