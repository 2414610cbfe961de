//! The limits of an owner's calls.

/// How often an update is tried: once, and again after each Stale but the last.
pub const MAX_TRIES: usize = 9;

/// How many names the list of a creation has at most.
pub const MAX_LIST_NAMES: usize = 65_535;

/// How many bytes the names of such a list have at most, with one more for each.
pub const MAX_LIST_BYTES: usize = 1_000_000;
