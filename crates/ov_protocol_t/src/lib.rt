//! Rows of `ov_protocol`, `ov_transcript` and `ov_server`, and of the tries of `ov_client` and
//! `ov_owner`: what is sent for a command, what a server answers and by what, at small values, and
//! what one step of a definition says. `premises` has those of completeness: that a small store has
//! all the premises under which calls are answered, so that none of them can be narrowed until the
//! clauses behind it say nothing; `books` has those of an owner's book.
//!
//! No wrong code shows what a definition is for where there is none, or where code reads it too.
//! Each function here but those on a new store, a first call and a reader's line has an empty body, and its
//! contract is a row. Where the definition is turned the row isn't proved any more. The statements
//! are in `specs/`, and each says what the turned definition would give.
#![tactic(auto)]

mod books;
mod premises;
mod replies;
mod transcripts;
mod tries;

pub use books::{a_first_call_by_a_book_needs_its_files, a_pending_enrolment_is_served_twice};
pub use premises::{
    a_new_store_is_one_of_its_masters, a_server_in_this_process_is_alone,
    an_act_over_a_new_store_is_answered, the_line_of_the_only_user_is_right,
};
pub use replies::{
    a_chunk_has_its_size, a_chunk_is_of_the_generation_asked, a_gone_file_has_an_entry,
    a_refused_update_is_not_made, a_removal_names_no_user, a_replacement_is_of_a_name,
    a_replan_is_of_the_list_now, a_reply_has_a_form, a_told_chunk_is_exact,
    an_accepted_update_is_shown, the_tag_is_looked_at_before_the_epoch,
    updates_are_made_at_their_epoch_alone,
};
pub use transcripts::{
    a_refusal_ends_a_command, a_removal_asks_for_its_update_alone,
    a_replacement_asks_for_its_update_alone, a_revocation_asks_for_its_update_alone,
    a_server_answers_by_its_check_value, each_byte_of_a_file_is_in_a_chunk,
    the_frames_of_a_removal_are_short, the_frames_of_a_replacement_are_short,
};
pub use tries::{a_read_has_nine_tries, an_update_has_nine_tries};
