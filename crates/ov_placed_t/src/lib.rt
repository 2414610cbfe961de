//! Tests of `ov_placed`, `ov_updating` and `ov_recoat`: where the extents of a file are while records
//! are replayed, which place of a bad record is named, and a caller that replays one record after
//! another; what lies in Blobs and Book after a file was created, files that are turned piece by piece,
//! and a record that is read again.
#![tactic(auto)]

#[cfg(test)]
mod bodies;
mod replaying;
#[cfg(test)]
mod replays;
#[cfg(test)]
mod updating;

pub use replaying::replay_all;
