//! Tests of threads over a real server: of `ov_turn` by one pass and by two on two threads, and of
//! `ov_host` with `ov_acts` over a port of this machine.
#![tactic(auto)]

#[cfg(test)]
mod commands;
#[cfg(test)]
mod frames;
#[cfg(test)]
mod lines;
#[cfg(test)]
mod one_pass;
#[cfg(test)]
mod pair;
#[cfg(test)]
mod port;
#[cfg(test)]
mod two_passes;
