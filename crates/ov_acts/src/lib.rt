//! An owner's and a reader's commands to a server: what the words of a command line ask for, and
//! what is done.
//!
//! [`read_job`] takes the words apart into a [`Job`], and [`act`] does it over any two files, any
//! sink and any peer. It reads the file of keys, then the bytes to be stored, asks the server for
//! its check value, makes the owner's or the reader's call, and puts one result:
//!
//! | [`Act`] | result |
//! |---|---|
//! | `enrol`, `create`, `grant`, `revoke`, `remove`, `replace` | `ok EPOCH` |
//! | `list` | `list FILE NAMES` |
//! | `key` | the line of a user's keys |
//! | `read` | the bytes of a file, asked for with such a line |
//! | `check` | the base master's check value; no server is asked |
//!
//! A refusal is put as its line, `refused NUMBER WORD`, and where an act has no result for another
//! reason nothing is put. Each reason is a [`Stop`], which has its [`Status`].
//!
//! A contract sees a job as its act and three words: an address and two paths. It sees a file as
//! the bytes that are left of it, where they are told, the peer as what it was asked and which
//! history it serves, and each fault as a count that rose.
//!
//! | module | what it does |
//! |---|---|
//! | `help`, `line` | the lines of all commands with their help, and what clap makes of them |
//! | `words` | the words of the command line, taken apart |
//! | `job` | what they ask for |
//! | `acting` | what a job does |
//! | `files` | what is read of files: masters, a user key line, bytes to be stored |
//! | `command` | an owner's commands |
//! | `outcome` | what is put to standard output |
//! | `stop`, `status` | why there is no result; the exit statuses |
//!
//! | file in `specs/` | says |
//! |---|---|
//! | `Acts` | what an act asks, in which order, and what comes of it |
//! | `Files` | what is found in the files, or why the act stops there |
//! | `Machine` | what acts come to by the machine, over a peer that tells its history |
//! | `Completeness` | over which servers, and with which files, an act is answered |
//! | `Laws` | that each legal store is such a server's, and which files are such |
//! | `Printing`, `Endings` | what is put of it, and the status |
//! | `Words` | which words are the line of a job |
//! | `Stops`, `Status`, `Causes` | why there is no result, and the status of each reason |
#![tactic(auto)]

mod acting;
mod command;
mod files;
mod help;
mod job;
mod laws;
mod line;
mod outcome;
mod status;
mod stop;
mod words;

pub use acting::act;
pub use files::{bytes_of, masters_of};
pub use help::{Line, line_of};
pub use job::{Act, Job};
pub use laws::{legal_histories_are_stores, right_files_are_enough};
pub use line::judge;
pub use outcome::finish;
pub use status::Status;
pub use stop::Stop;
pub use words::{MAX_WRITTEN_LIST, Taken, act_of, has_option, names_of, read_job};
