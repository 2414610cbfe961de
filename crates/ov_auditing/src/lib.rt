//! An audit of a store: which files some users could ever have read, had they kept everything.
//!
//! The contract of [`audit`] says what it prints for each store and each list of users: exactly the
//! files that these users can read, each by its cause and since its epoch. It looks at its words,
//! reads the key file, opens the store and checks its updates, reads them again one by one
//! (ov_replaying), and looks at the catalogue after each (ov_audit). It calls nothing that writes to
//! the disk.
//!
//! | module | what it does |
//! |---|---|
//! | `audit_words` | the words that ask for an audit |
//! | `naming` | the users of the words, by number |
//! | `replaying` | the updates, read again and looked at one by one |
//! | `listing` | what is printed |
//! | `auditing` | the top call, and its contract |
//!
//! | definitions | what they say |
//! |---|---|
//! | `AuditWords` | the words that ask for an audit |
//! | `Lines` | the line of a finding |
//! | `Exposed` | what is printed of a history: findings that are exact, or that a user isn't there |
//! | `Following` | inner: that an audit has seen a history |
//! | `Promises` | what an audit promises, from which disks, and how it ends |
#![tactic(auto)]

mod audit_words;
mod auditing;
mod listing;
mod naming;
mod replaying;

pub use auditing::audit;
