//! Tests of `ov_serving`: sessions in threads of their own, of which one waits until another was
//! asked, sessions that are served by their caller, and a value that is shared and taken back.
#![tactic(auto)]

#[cfg(test)]
mod closing;
#[cfg(test)]
mod serving;
