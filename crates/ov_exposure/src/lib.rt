//! What has been given away: which files some users can read after a history, where they kept
//! everything that they were ever shown.
//!
//! This crate has definitions and laws, and no code. A *moment* of a sealed history is a list of its
//! first updates. Users who kept everything have the keys that their roots lead to at the end of the
//! history, and the stored bytes of each file from every moment at which it was there. They can read
//! a file where these keys include, for some such moment, all that protected the file then. Users
//! whom the server helps have the key of every surface besides.
//!
//! Which files these are is said three times, each time in other words, and the three are proved to
//! be the same:
//!
//! 1. by labels and closures (`CanRead`);
//! 2. in the words of the matrix and the layers: one of the users was *listed* once; or one holds
//!    the file's base node now, and the file was *bare* once, or the server helps (`IsExposed`, with
//!    the first epoch at which it was so);
//! 3. by notes: what an audit, which sees one state of a store after the other and keeps no history,
//!    writes down of each file (`Note`), and what it finds in them at the end (`findings_from`).
//!
//! Files that are gone count as all others do.
//!
//! | file in `specs/` | says |
//! |---|---|
//! | `Exposure` | moments, who can read, the causes by which a file is exposed |
//! | `Auditing` | what an audit notes, one look at a state, and findings |
//! | `Hoarding` | that what is read by labels comes out as bytes |
//! | `Staying` | that nodes, edges and tokens stay, once they are published |
//!
//! A law is a public function with an empty body, whose contract is the law.
//!
//! | law | function |
//! |---|---|
//! | who can read was listed, or the file was bare; several users read what one of them does | [`what_was_shown_can_be_read`] |
//! | with the server, who can read holds the file's base node, and so does who has its access key | [`what_is_held_can_be_read_with_the_server`] |
//! | exposed files are those that can be read, each by one cause since one epoch | [`what_is_exposed_can_be_read`] |
//! | an audit of all states so far tells of their history, and its findings are exact | [`audits_go_on`] |
//! | who can read a file gets its bytes | [`readers_were_given_bytes`] |
//! | nodes, edges and tokens stay, once they are published | [`what_was_published_stays`] |
//!
//! The laws of the first two rows have no premise but that the history is a sealed one and the users
//! are users at its end. They speak of labels: that two labels have different keys isn't claimed,
//! nor anything of bytes or keys that somebody else passed on.
#![tactic(auto)]

mod exposure;

pub use exposure::{
    audits_go_on, readers_were_given_bytes, what_is_exposed_can_be_read,
    what_is_held_can_be_read_with_the_server, what_was_published_stays, what_was_shown_can_be_read,
};
