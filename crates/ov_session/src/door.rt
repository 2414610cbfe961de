//! Where sessions come from.
ghost use Rattle.std.specs.Prelude.{◌≡◌};
ghost use Rattle.ov_session.specs.Doors.{Accepts, Doorway, IsOut, Listens, taken_back};

use crate::SessionEnd;
use ov_io::{Fault, MemStream, Stream};

/// A stream that is told when its session is over.
pub trait Dismiss {
    /// The session of this number is over, and ended so: nothing more is taken or put. This is called
    /// where the session ran, and its door may take the stream back much later.
    fn dismiss(&self, number: u32, end: SessionEnd);
}

impl Dismiss for MemStream {
    fn dismiss(&self, number: u32, end: SessionEnd) {
        let _ = (number, end);
    }
}

/// Gives streams, one for each session, and takes each back when its session has ended.
pub trait Door {
    /// The streams that the door gives.
    type Stream: Stream + Dismiss + Drop;

    /// What the door shows: the address at which it listens, and the streams that it gave and took
    /// back, where it tells these; the number of the streams; whether it has answered that there
    /// are no more; and how often it has failed.
    ghost shows: { Self → Doorway Self.Stream };

    /// Begins to listen, and appends the address at which it listens.
    fn listen(&mut self, address: &mut Vec<u8>) -> Result<(), Fault>
        ensures { Listens (shows self.old) (shows self.new) address.old.items address.new.items
            result };

    /// Gives the next stream; None where there are no more.
    fn accept(&mut self) -> Result<Option<Self::Stream>, Fault>
        ensures { Accepts (shows self.old) (shows self.new) result };

    /// Takes back the stream of this number, with the end of its session. The first stream that was
    /// given has number 0.
    fn ended(&mut self, number: u32, stream: Self::Stream, end: SessionEnd)
        requires { IsOut (shows self.old) number }
        ensures { shows self.new ≡ taken_back (shows self.old) number stream end };
}
