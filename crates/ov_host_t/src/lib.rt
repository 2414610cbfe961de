//! Tests of `ov_host`: a server of two sessions at once, of which the first waits for the second, and
//! the same sessions with no threads. Each exit status is in the cases of `server_cases`.
#![tactic(auto)]

#[cfg(test)]
mod at_once;
#[cfg(test)]
mod memory;
