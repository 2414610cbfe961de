//! Reads and writes of std that are made again where a signal interrupted them.
//!
//! A call that waits may come back with nothing done because a signal came. On Linux that is so, at
//! a socket with a time limit, even where a process was only stopped and goes on. It says nothing of
//! what is read or written, so it is no fault: [`read_retrying`], [`write_retrying`] and [`Retrying`]
//! make the call again. The functions of std that read or write all bytes do so by themselves.
#![tactic(auto)]

mod reading;
mod retrying;
mod writing;

pub use reading::read_retrying;
pub use retrying::Retrying;
pub use writing::write_retrying;
