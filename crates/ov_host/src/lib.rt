//! A server over its disk and its door.
//!
//! [`host`] begins the store on its disk, listens at its door, serves each stream that the door
//! gives in a session of its own, as many at once as the settings have workers, and ends with a
//! status. It puts a line when it listens and one when it ends:
//!
//! | status | last line | where |
//! |---|---|---|
//! | 0 | `served N` | N sessions were served, all that were wanted or that the door had |
//! | 4 | `error disk` | the disk failed as the store was begun |
//! | 6 | none | a line couldn't be put |
//! | 7 | `error memory` | memory was refused |
//! | 8 | `error notastore`, `error damaged ..` | there is another file, or a damaged store |
//! | 9 | `error key ..`, `error mode ..` | the store is of other keys or the other mode |
//! | 13 | `error door` | the door failed |
//!
//! At 4, 8 and 9, and at 6 and 7 in their place, no store was begun, and [`Hosted`] says so. It has
//! the disk, as the server left it.
//! `specs/Hosting` says it all: what is put in which order, that the first line has the address at
//! which the door listens, where the door tells that, that the sessions are those of a server of
//! just the store that was begun, and which status has which cause. Once an update of any session
//! was answered by this, that the disk failed, no session's update is accepted any more
//! (`AreToldOf` in `specs/Sharing`).
#![tactic(auto)]

mod disk_server;
mod hosted;
mod hosting;
mod laws;
mod serving;
mod sharing;

pub use disk_server::DiskServer;
pub use hosted::Hosted;
pub use hosting::host;
pub use laws::{accepted_updates_lead, stores_survive};
pub use serving::DOOR_FAULT;
