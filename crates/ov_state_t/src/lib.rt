//! Tests of `ov_state`: histories in both modes, with the files that each update rewrites, the updates
//! that are refused, and a day's counts. The access keys come from Python's `hmac` and `hashlib`.
#![tactic(auto)]

#[cfg(test)]
mod state;
