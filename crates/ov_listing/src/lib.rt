//! What a store shows to whoever asks: its mode, its epoch, its users, and its files with their
//! lists.
//!
//! [`answer`] gives the text that answers a [`Question`]. [`ask_welcome`] asks for mode and epoch.
//! [`ask_listing`] asks besides, page by page, for the names of the users and of the files, and for
//! the list of each file. A file that was removed keeps its page, which shows that it is gone, and
//! isn't listed. What it gives is of one epoch: the server is asked for its epoch before and after,
//! and where that moved meanwhile all is asked again, nine times in all. A list that is refused has
//! it begin again too: its file was removed after its page was shown. No key is needed, since the
//! catalogue is public.
//!
//! ```text
//! answer ──► ask_listing ──► try_once ──► ask_welcome           Hello: mode and epoch
//!                 ▲             ├───────► names_of ──► shown_at Page: a name, a gone file, or none
//!                 │             ├───────► lists_of ──► list_of  List: the names in it, or no file
//!                 │             └───────► ask_welcome           Hello: the epoch again
//!                 └── again, up to nine tries, where the epoch is another or a list is refused
//! ```
//!
//! Over a peer that tells which history it serves, a listing is that of the access matrix of the
//! history that is served then, whatever others update meanwhile (`told`); where nobody else does,
//! one try is enough (`once`). A peer that gives names
//! without end is asked for one more than a store can have, and no further.
//!
//! | file in `specs/` | says |
//! |---|---|
//! | `Listings` | what is to be listed of a history |
//! | `Telling` | what an answer is worth over a peer that tells its history |
//! | `Questions` | what is taken of one answer |
//! | `Causes` | where a fault of the link comes; that one try was enough |
//! | `Reasons` | where a reply is a bad one, and where the store is said to have changed |
//! | `Texts`, `Answers` | the lines of a listing, and the text that answers a question |
//!
//! Nothing is claimed of a peer that tells nothing: it may show any users and any lists.
#![tactic(auto)]

mod answering;
mod asking;
mod fault;
mod gathering;
mod listing;
mod part;
mod shown;
mod texts;
mod trying;

pub use answering::{Question, answer};
pub use asking::ask_welcome;
pub use fault::ListingFault;
pub use listing::{Listed, Listing, Wanted};
pub use trying::ask_listing;
