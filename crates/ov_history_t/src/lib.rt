//! Rows of `ov_history`, `ov_model` and `ov_images`: their definitions at small values. Those of
//! `ov_images` say which small stores keep a history beside the extents of their files, and which are
//! damaged, and where; and what stores of both formats have in common, and what not.
//!
//! Those crates have no code, so no wrong code shows what a definition is for. Each function here
//! has an empty body, and its contract is a row: what a definition gives at a history of a few
//! updates, under one node, or at one image of a store. Where the definition is turned the row isn't
//! proved any more. The statements are in `specs/`, and each says what the turned definition would
//! give.
#![tactic(auto)]

mod extents;
mod fading;
mod formats;
mod images;
mod layers;
mod machine;
mod ordering;
mod premises;
mod refusing;
mod replacing;

pub use extents::{
    a_changed_byte_behind_a_file_is_no_damage, a_file_has_whole_blocks,
    a_file_past_the_end_is_damage, an_empty_file_has_no_block, blocks_are_used_again,
    blocks_in_use_are_damage, new_blocks_are_apart, own_blocks_are_in_use, removed_blocks_are_free,
    removed_files_are_gone, replaced_blocks_are_free, replaced_files_have_names,
    the_gate_comes_before_first_blocks, the_number_of_first_blocks_is_damage,
};
pub use fading::files_fade_from_a_start;
pub use formats::{
    a_longer_body_is_no_step_record, a_removal_is_of_the_second_format,
    a_replacement_is_of_the_second_format, a_step_record_changes_nothing,
    a_step_record_changes_the_form, a_step_record_moves_the_places_behind_it,
    new_stores_are_of_the_second_format, one_step_record_is_left_out, records_follow_a_step_record,
    short_lists_are_of_the_first_format,
};
pub use images::{
    a_book_keeps_its_last_update, a_header_has_the_check_of_the_surface_master,
    a_header_has_the_first_epoch, an_unborn_image_begins_at_epoch_zero,
    an_unfit_record_is_not_the_next_one, keys_have_the_check_of_the_base_master,
    one_of_two_histories_is_left,
};
pub use layers::{
    a_base_coat_is_under_the_access_key, a_new_file_has_a_node_of_its_own_list,
    a_number_is_given_once, a_surface_for_the_holders_is_wanted, accesses_outlive_files,
    an_old_coat_is_taken_off, holders_have_accesses, new_surfaces_come_in_the_order_of_files,
    surfaces_have_their_own_keys,
};
pub use machine::{
    a_file_is_removed_once, a_file_that_is_not_there_is_not_replaced,
    a_line_is_of_the_history_before, a_refused_update_changes_nothing, a_removed_file_is_not_there,
    a_replaced_file_has_the_new_bytes, only_the_listed_read, the_next_epoch_is_answered,
};
pub use ordering::new_surfaces_are_in_the_order_of_files;
pub use premises::{
    each_coat_is_a_pad, names_that_are_not_empty_name, places_in_a_range_are_its_own,
    roots_hold_their_own_node, sealed_steps_are_true, short_bytes_are_an_end,
    what_owners_seal_is_theirs, writes_at_the_end_begin_inside,
};
pub use refusing::{
    a_question_has_the_lowest_refusal, a_removal_frees_bytes_and_name,
    an_update_has_the_lowest_refusal, bytes_fill_a_store, the_last_epoch_is_spent,
};
pub use replacing::{
    a_replaced_file_is_gone, a_replacement_is_a_new_file_of_its_list,
    numbers_go_on_behind_a_replacement, old_bytes_do_not_count,
};
