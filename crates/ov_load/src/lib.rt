//! A load: the commands of a stated workload are answered in a script's place.
//!
//! The contract of [`load`] says that its seven lines tell of the machine's replies to just the
//! commands of the workload: their counts, the epoch, and the hash of the lines that a script of
//! the same commands is answered with; what it sends; and what a stop leaves.
//!
//! | module | what it does |
//! |---|---|
//! | `loading` | the top call, and its contract |
//! | `load_words` | the words that ask for a load |
//! | `workload` | the loop over its commands |
//! | `tally` | what is kept of their replies |
//! | `summary` | its seven lines |
//! | `laws` | what its counts add up to |
//!
//! | definitions | what they say |
//! |---|---|
//! | `Loading` | what a load promises |
//! | `LoadEnding` | how it ends, and its frames |
//! | `LoadWords` | the words that ask for it |
//! | `Tallying`, `Summary` | the counts and the hash of replies; the seven lines |
#![tactic(auto)]

mod laws;
mod load_words;
mod loading;
mod summary;
mod tally;
mod workload;

pub use laws::the_counts_add_up_to_the_commands;
pub use loading::load;
