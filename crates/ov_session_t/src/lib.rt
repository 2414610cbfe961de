//! Tests of `ov_session` and `ov_settings`: what a gate is told, what a door gives back, what a peer
//! keeps of a reply that doesn't come, sessions over a port of this machine, and over a socket that
//! signals interrupt. Sessions in memory and settings files are in the cases of `server_cases`, and a
//! peer behind a stream in those of `client_cases`.
//!
//! Code and definition could be wrong together. So `rows` has functions with empty bodies, whose
//! contracts are rows: what a definition that contracts cite gives at one value. Where the definition
//! is turned the row isn't proved any more. The statements are in `specs/`, and each says what the
//! turned definition would give.
#![tactic(auto)]

#[cfg(test)]
mod dripping;
#[cfg(test)]
mod memory;
#[cfg(test)]
mod peer;
#[cfg(test)]
mod port;
mod rows;
#[cfg(test)]
mod session;
#[cfg(test)]
mod signals;

pub use rows::{
    no_memory_is_answered_as_such, the_longest_settings_file_is_one, workers_are_four_or_given,
};
