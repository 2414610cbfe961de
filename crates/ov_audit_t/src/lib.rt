//! Tests of `ov_audit`: worked audits of one user, of two, and with the server, in both modes, with
//! files that were removed and replaced, and of a store that began at another epoch than 0. The
//! findings come from a plain program that tries each user's keys on each saved state.
#![tactic(auto)]

#[cfg(test)]
mod audits;
