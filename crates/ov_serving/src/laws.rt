//! Laws of a value that sessions share. Each function does nothing.
ghost use Rattle.ov_serving.specs.Laws.{FirstPassesAreOfIt, LogIsAllThatSessionsAccepted};
ghost use Rattle.ov_serving.specs.Laws.{LogIsWhatSessionsAccepted, PassesSeeTheirOwn};
ghost use Rattle.ov_serving.specs.Laws.{SessionsAreToldOneHistory, SessionsLeaveValues};

use ov_io::Stream;
use ov_peer::Answerer;

/// The first passes of a shared value are passes of it.
pub fn first_passes_are_of_it<V: Answerer>()
    ensures { FirstPassesAreOfIt V.tells }
{}

/// A session leaves its pass with one more call for each exchange, and has it see as its own what
/// these exchanges accepted.
pub fn passes_see_their_own<V: Answerer, L: Stream>()
    ensures { PassesSeeTheirOwn V.tells L.Source.tells L.Sink.tells }
{}

/// The list of the updates that a shared value accepted has, of each pass, those that the sessions
/// by this pass accepted, in the same order.
pub fn the_log_is_what_sessions_accepted<V: Answerer, L: Stream>()
    ensures { LogIsWhatSessionsAccepted V.tells L.Source.tells L.Sink.tells }
{}

/// That list has all updates that the sessions accepted, each once, and no other.
pub fn the_log_is_all_that_sessions_accepted<V: Answerer, L: Stream>()
    ensures { LogIsAllThatSessionsAccepted V.tells L.Source.tells L.Sink.tells }
{}

/// All sessions are told of that one list: each reply is the value's after a first part of it. Once a
/// reply says that the disk failed in an update, no session's update is accepted any more.
pub fn sessions_are_told_one_history<V: Answerer, L: Stream>()
    ensures { SessionsAreToldOneHistory V.tells L.Source.tells L.Sink.tells }
{}

/// All of this together, of a value that `close` gave back.
pub fn sessions_leave_values<V: Answerer, L: Stream>()
    ensures { SessionsLeaveValues V.tells L.Source.tells L.Sink.tells }
{}
