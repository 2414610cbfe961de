//! What a program says of a store that isn't begun, and how it ends.
//!
//! A program whose store isn't begun ([`BeginFault`](ov_store::BeginFault)) puts one line that says
//! why, and ends with the status for it: [`put_fault`]. The lines and the statuses are in
//! `specs/Faults`. Each last line is put by [`put_last`]: where it can't be put the status is 6,
//! and the count of the sink rose. [`standing_images_open`] is the law that no image which stands
//! for a history of the keys and the mode is refused, unless the disk failed or memory was refused.
#![tactic(auto)]

mod fault_lines;
mod last;
mod laws;

pub use fault_lines::{line_on_fault, push_values, status_of, values_are_known, word_of};
pub use last::{WRITE_FAULT, put_fault, put_last, put_memory};
pub use laws::standing_images_open;
