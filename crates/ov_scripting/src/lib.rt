//! A script over the network: its commands are answered by a server, one after another, over one
//! session.
//!
//! [`script`] reads the masters of a key file, asks the server for its check value, and then answers
//! the items of a script as `overstore run` does, each by an owner's or a reader's call. Each reply
//! is put before the next item is read. A refusal is a reply as any other; a bad item and a fault end
//! the script.
//!
//! | module | what it does |
//! |---|---|
//! | `scripting` | the top call |
//! | `answering` | the loop over the script's commands |
//! | `performing` | one command, by the owner or the reader that it makes |
//! | `replying` | the reply to a command, by what was answered |
//! | `finishing` | the last line |
//! | `ended` | how a script ended, and the exit status |
//!
//! | file in `specs/` | says |
//! |---|---|
//! | `Performing` | what a command asks of a peer, and what comes of it |
//! | `Answering` | what a script comes to, command by command |
//! | `Scripting` | what `script` does, from the key file to the last line |
//! | `Machine` | the same over a server that nobody else updates: the lines are the machine's |
//! | `Endings` | the exit statuses, and why each comes |
#![tactic(auto)]

mod answering;
mod ended;
mod finishing;
mod performing;
mod replying;
mod scripting;

pub use ended::Ended;
pub use scripting::script;
