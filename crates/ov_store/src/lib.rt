//! A store that survives a stop: its updates are written down before they are made.
//!
//! A [`Store`] has its catalogue in memory, with the first block of each file (`ov_placed`), and a
//! disk with a journal of its updates (`ov_journal`); the stored bytes of files lie in extents of
//! the disk's area Blobs (`ov_blocks`). [`Store::begin`] begins an empty store of the second
//! format where there is none, and else replays the records that an earlier run left, in whichever
//! format each is, and no file's bytes. [`Store::update`] prepares an update, writes the new bytes
//! of files into extents that were free, and then its record, and only then makes it, which can't
//! fail: so what was answered with `Ok` outlasts each later stop, and a stop at any moment leaves
//! the history from before or it with this update. The blocks of a file that an update removes or
//! replaces are free for later ones once its record is on the disk. [`Store::chunk`] reads stored
//! bytes, [`Store::check`] looks whether all updates are as their owner seals them, for which it
//! reads each file that is there once, and [`Store::close`] gives the disk back. [`Store::open`] opens a
//! store that is there, in whichever mode, and begins none; [`Store::brief`] reads one update again,
//! and [`Store::whole`] reads it with the bytes that its owner sent. [`Store::begin_at`] begins an
//! empty store at any epoch, and only where there is none: a shorter copy of a store ends at the
//! epoch of the store itself, so it begins at a later one.
//!
//! A store of the first format is carried over to the second by its first update that isn't
//! refused: this writes a step record before its own, and all records behind that are in the second
//! format. Programs that know the first alone open the store no more. [`is_to_be_carried_over`]
//! says before a store is opened that this is to come, and [`Store::is_to_be_carried_over`] says it
//! of an open one.
//!
//! **What a contract sees** is one value, `Opened` (`specs/Opened`): the disk, the keys, the
//! catalogue, the stored bytes, which are cut out of what the disk reads and so are said only where it
//! tells its bytes, and whether a call of the disk failed in an update. `Serves g s` says that the store
//! stands for the sealed history g, and that each image which a crash may leave keeps it
//! (ov_images), or once a call failed it with one update more. No history is kept in code: a clause
//! reads 'for each history for which the old store stood'. That there is one is part of the store's
//! invariant, and [`Store::known`] hands it out. What is said of images is said where the disk
//! tells its bytes; all else holds over every disk.
//!
//! | file in `specs/` | says |
//! |---|---|
//! | `Opened` | an open store as a value, and for which history it stands |
//! | `Updating` | what an update answers, and what it leaves |
//! | `Beginning` | why no store is begun, and what a crash in a beginning leaves |
//! | `Causes` | that one cause is said of an image ([`causes_are_one`]) |
//! | `Opening` | why no store is opened where none is to be begun |
//! | `Briefs` | updates that are read again |
//! | `Wholes` | updates that are read again with the bytes of their files |
//! | `Carrying` | stores that their next update carries over |
//! | `Chunks` | what is answered to a question for stored bytes |
//! | `Owners` | updates that are as their owner seals them, and the first that isn't |
//! | `Replaying`, `Faults` | inner: records that are replayed, and why not |
//!
//! After a fault of the disk a store makes no more updates: open it again to know which of the two
//! histories it keeps. docs/CRASH.md tells the argument in words.
#![tactic(auto)]

mod as_sent;
mod begin;
mod begin_at;
mod birth;
mod briefs;
mod carrying;
mod check;
mod chunk;
mod existing;
mod fault;
mod format;
mod laws;
mod owners;
mod reopen;
mod replay;
mod store;
mod texts;
mod update;

pub use begin::BeginRefused;
pub use briefs::BriefFault;
pub use carrying::is_to_be_carried_over;
pub use fault::{BeginFault, ChunkFault, StoreFault};
pub use laws::causes_are_one;
pub use store::Store;
