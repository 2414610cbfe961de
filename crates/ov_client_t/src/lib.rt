//! Tests of `ov_peer`, `ov_client`, `ov_owner` and `ov_acts`: a caller over any peer, reads of files of
//! several chunks, the texts of faults, and a limit. The replies, keys and traces come from an
//! implementation in Python that shares nothing with this one. What owners, readers and their program
//! make of single replies is in the cases of `client_cases`.
#![tactic(auto)]

#[cfg(test)]
mod client;
#[cfg(test)]
mod limits;
#[cfg(test)]
mod peer;
#[cfg(test)]
mod texts;
