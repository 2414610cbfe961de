//! Frames that are put to a stream.
ghost use Rattle.ov_wire.specs.Frames.{IsFrame};
ghost use Rattle.ov_session.specs.Links.{IsSameLoan, link};
ghost use Rattle.ov_session.specs.Steps.{PutsFrame};

use ov_io::{Fault, Stream};

/// Puts a frame behind its length field, and leaves the other half of the stream as it is.
pub fn put_frame<L: Stream>(stream: &mut L, frame: &[u8]) -> Result<(), Fault>
    requires { IsFrame frame.now }
    ensures puts { PutsFrame
        (link L.Source.tells L.Sink.tells stream.old) (link L.Source.tells L.Sink.tells stream.new)
        frame.now result }
    ensures same { IsSameLoan L.Source.tells L.Sink.tells stream.old stream.new }
{
    ov_peer::put_frame(stream, frame)
}
