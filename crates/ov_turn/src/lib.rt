//! Threads that take turns at one answerer.
//!
//! A [`Shared`] holds an `Answerer` of ov_peer, as a server is one, and answers the requests of
//! several threads, one after the other. Each thread asks by a [`Pass`] of its own, and as many
//! passes as the caller wants are made with it. What all of them are told is one history.
//!
//! ```text
//! Shared::new ──► Shared, and the passes
//!     ask     draw a ticket ─► wait until it is served ─► answer ─► raise the epoch, if the
//!             reply is an Accepted ─► give the value back, and pass the turn on
//!     epoch   one load, which waits for nobody
//! Shared::close ◄── Shared, and all passes: the answerer comes back
//! ```
//!
//! It is a ticket lock over one table of the kit (`atomic_table`): three words, which are the next
//! ticket, the ticket that is served and the epoch, and one slot, in which the value is answered.
//! Threads wait for their turns at a plain lock before they draw a ticket. There they idle for some
//! thousand cycles first, then let others run a few times, and then sleep.
//!
//! **What a contract sees** of a pass is its number, the count of its calls, the accepted updates
//! that it has *seen*, in order, the epoch that it was last *told*, and whether the disk *failed* in
//! an update of its own (`PassState` and `Knowledge`). Each update in that list is an `Entry`: the
//! pass and the call that asked it, and its spelling.
//!
//! * A call is answered at one list: that of the updates accepted before its turn. This list goes
//!   on from what the pass knew, by the updates of others alone (`GoesOnFrom`): it begins with what
//!   the pass has seen, and its epoch is at least the one that the pass was told.
//! * The reply is the answerer's at this list. The pass has then seen it, with the call's own
//!   update at its end exactly where the reply is an Accepted. So a pass's own updates in what it
//!   has seen are those of its accepted calls, each once.
//! * Once an update was answered by this, that the disk failed, none is accepted any more, whichever
//!   pass asks it (of its own each call says so, and of the others `close`): the list stays what the pass that was told so had seen then.
//! * Where memory is refused nothing is accepted; the call counts, and the pass has seen the list.
//! * A pass that has asked 4,294,967,295 times is spent: it asks nothing and stays as it is.
//! * [`Shared::epoch`] takes no `Wait`. The epoch that it gives is no less than the one told
//!   before, nor than that of the updates seen.
//! * [`Shared::close`] gives the answerer back as one list of updates left it. What every pass has
//!   seen is a beginning of this list, it has no more of the pass's own updates, and no two are of
//!   the same call. No pass was told more than its epoch. Where the disk failed in an update of a
//!   pass the answerer that comes back is stuck.
//!
//! | file in `specs/` | says |
//! |---|---|
//! | `Logs` | lists of accepted updates, and what a pass knows of them |
//! | `Passes` | a shared value, its passes, and what a call tells |
//! | `Views` | inner: what a seat at the table knows, and what becomes of it by each step |
//! | `Rule` | inner: what holds between any two steps |
//! | `Steps` | inner: what each step tells its seat |
//!
//! Nothing is claimed of the order of turns, nor that a turn ever comes: a call that waits keeps its
//! contract if it returns; nor that a pass sees what another was answered before its call. No clause
//! says that [`Shared::epoch`] reads the shared word: its clauses bound the number from below, and
//! those of later calls from above; a test shows it (`ov_threads_t`). Sessions ask by passes
//! (`ov_serving`), and none of them asks for the epoch so.
#![tactic(auto)]

mod asking;
mod closing;
mod opening;
mod pass;
mod plays;
mod shared;
mod steps;
mod view;

pub use opening::NewRefused;
pub use pass::Pass;
pub use shared::Shared;
