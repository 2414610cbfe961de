//! A script, answered: the store that is begun for it, its commands one after another, and the last
//! line.
//!
//! [`begin`] begins the store on a disk under the two masters and looks at all its records, with the
//! texts of the files that they create. [`answer_all`] answers the commands of a script by a
//! machine, puts each reply line, and says why it stopped ([`Stop`]). [`finish`] puts the last line,
//! by that, and gives the exit status. What a run and a load have in common is here.
//!
//! | module | what it does |
//! |---|---|
//! | `opening` | the store, begun and looked at |
//! | `answer` | the loop over the script's commands |
//! | `finishing` | the last line |
//! | `status` | the exit statuses |
//! | `words` | the word of a mode |
//!
//! | definitions | what they say |
//! |---|---|
//! | `Answering` | what a command and a script come to: the lines, and the disk |
//! | `Tracing` | what is put to the trace |
//! | `Pacing` | how far the script is taken before its replies are put |
//! | `Lasting` | what a stop leaves, and what lasts |
//! | `Judging` | why the image of a disk is refused |
//! | `Printing`, `Faults`, `Status` | what is printed by the outcome; the line on a wrong tag; the statuses |
//! | `Ending` | how an answering ends: its status and its causes, the key file, the words and the disk |
//! | `ByScript` | how it ends by what its script says, whatever its disk tells |
//! | `Answered` | all of it, of one text |
#![tactic(auto)]

mod answer;
mod finishing;
mod opening;
mod status;
mod words;

pub use answer::{Stop, answer_all, stop_of};
pub use finishing::{finish, put_last};
pub use opening::{base_check_of, begin, checked};
pub use status::Status;
pub use words::mode_of_word;
