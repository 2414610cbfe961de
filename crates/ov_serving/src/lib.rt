//! Many sessions at once over one shared value, each by a pass of its own.
//!
//! A session of ov_session has an asker. Here that is a [`SessionPass`]: it asks a `Shared` of
//! ov_turn by one pass, in its turns, so that what all sessions are told is one history. A
//! [`Session`] is a stream with a pass, and a [`Spawner`] runs sessions in threads of their own.
//!
//! ```text
//! serve   a pass is free, or a session is finished ─► accept ─► start, or run it here
//!     start   hands the session to a thread of its own, which runs serve_one over its stream
//!     finish  waits until one of the started sessions is over
//! the door takes each stream back, and the session's pass is free again
//! ```
//!
//! **What a contract sees** of a spawner is the list of the sessions that were started and aren't
//! finished, in order, the most that there ever were of these, and a count of refused starts
//! (`SpawnerState`).
//!
//! * [`start`] puts a session behind the others. Where memory is refused or no thread can be made
//!   the same session comes back, and that is counted. A spawner by `Spawner::refusing` hands every
//!   session back, as a machine without threads does.
//! * [`finish`] gives what is left of one of these sessions, with the stream and the pass as
//!   `serve_one` left them, and the end that it answered. It is None exactly where no session is
//!   left. Which one it is isn't said: the one that is over first, so a session whose stream stands
//!   still keeps its own pass and no other.
//! * [`serve`] gives each stream of a door to one session, which one of the passes serves, and hands
//!   it back to the door as it was left, under its number. The sessions in the order of their
//!   numbers lead from the passes that it was given to those that it gives back (`LeadsPasses`).
//! * A session that can't be started is run by the caller of `serve`, and counted in `alone` and by
//!   the spawner. Where `alone` is 0 there were once as many sessions at once as passes, or as were
//!   served; there are never more of them than passes.
//!
//! **What the value accepted** is told by `close` of ov_turn as one list of updates. The laws of
//! this crate join it to the sessions. The list has all updates that their exchanges accepted, each
//! once and no other, and those of one pass in the order in which it asked
//! ([`the_log_is_what_sessions_accepted`]). Each reply of each session is the value's after a first
//! part of the list, which goes on by the request's own update where that was accepted, and is the
//! whole list where the reply says that the disk failed in an update. So, where replies tell after
//! which updates they are, as a server's do by the epoch, no session's update is accepted after it
//! ([`sessions_are_told_one_history`]). [`sessions_leave_values`] says both of a
//! value that came back.
//!
//! `start`, `finish` and `serve` are functions and no methods of a trait: the kit proves a function
//! that starts threads where its caller knows the types that the thread works with. Nothing is
//! claimed of time: that two sessions really run at once is shown by a test (`ov_serving_t`), in
//! which the first waits for the second, and so is that a session that is over is finished while an
//! earlier one goes on. `serve_one` tells the gate the number that it was given; that this is the
//! session's own, by which the door takes the stream back, is said by no clause here, and shown by a
//! test.
//! A stream is told that its session is over as that ends, by the thread that served it (`Dismiss`),
//! which no clause says: `serve` gives it back to the door only when it needs its pass, or at the end.
//! What the door took back, and with which end, is said where it tells its streams. A spawner that was
//! used before shows its earlier most.
//!
//! | file in `specs/` | says |
//! |---|---|
//! | `Calls` | what a session asks by a pass |
//! | `Sessions` | what one session does, and what is left of it |
//! | `Spawning` | what a spawner shows, and what `start` and `finish` do to it |
//! | `AtOnce` | sessions by number, the passes that serve them, and how many ran at once |
//! | `Accepted` | the updates that exchanges and sessions accepted |
//! | `Told` | what sessions were told of one list of updates |
//! | `Laws` | what holds of a shared value behind sessions |
//! | `Slots` | inner: what a spawner keeps of a session |
//! | `Places` | inner: how far the sessions of a door are |
#![tactic(auto)]

mod asker;
mod laws;
mod serving;
mod session;
mod slot;
mod spawner;
mod starting;

pub use asker::SessionPass;
pub use laws::{
    first_passes_are_of_it, passes_see_their_own, sessions_are_told_one_history,
    sessions_leave_values, the_log_is_all_that_sessions_accepted,
    the_log_is_what_sessions_accepted,
};
pub use serving::{ServeEnd, serve};
pub use session::{Ended, Session};
pub use slot::{Done, Line, Of, Outcome, Slot};
pub use spawner::Spawner;
pub use starting::{finish, start};
