//! Frames that are put to a sink, behind their length fields.
ghost use Rattle.std.specs.Prelude.{◌≡◌, ◌≤◌, length};
ghost use Rattle.ov_base.specs.Causes.{HasCause};
ghost use Rattle.ov_io.specs.Putting.{Puts};
ghost use Rattle.ov_wire.specs.Frames.{IsFrame, framed};
ghost use Rattle.ov_peer.specs.Framing.{PutsOnceOrTwice};

use ov_io::{Fault, Sink};

/// The longest frame that is put at once with its length field.
const SHORT: usize = 508;

/// A short frame behind its length field, put at once.
fn put_short<T: Sink>(sink: &mut T, frame: &[u8]) -> Result<(), Fault>
    requires { length frame.now ≤ SHORT }
    ensures bytes { Puts (T.tells.written sink.old) (T.tells.written sink.new) result (framed frame.now) }
    ensures same { T.tells.borrow sink.new ≡ T.tells.borrow sink.old }
    ensures cause { HasCause (T.tells.faults sink.old) (T.tells.faults sink.new) result }
    ensures step { T.tells.puts sink.old sink.new }
{
    let mut whole = [0; 512];
    let end = 4 + frame.len();
    whole[..4].copy_from_slice(&(frame.len() as u32).to_be_bytes());
    whole[4..end].copy_from_slice(frame);
    sink.put(&whole[..end])
}

/// Puts a frame behind its length field: a short one in one call, a longer one in two, so that its
/// bytes aren't copied. It takes no memory, so that an answer that was given is sent.
pub fn put_frame<T: Sink>(sink: &mut T, frame: &[u8]) -> Result<(), Fault>
    requires { IsFrame frame.now }
    ensures bytes { Puts (T.tells.written sink.old) (T.tells.written sink.new) result (framed frame.now) }
    ensures same { T.tells.borrow sink.new ≡ T.tells.borrow sink.old }
    ensures cause { HasCause (T.tells.faults sink.old) (T.tells.faults sink.new) result }
    ensures steps { PutsOnceOrTwice T.tells sink.old sink.new }
    ensures short { length frame.now ≤ 508 → T.tells.puts sink.old sink.new }
{
    if frame.len() <= SHORT {
        return put_short(sink, frame);
    }
    match sink.put(&(frame.len() as u32).to_be_bytes()) {
        Ok(()) => sink.put(frame),
        Err(Fault) => Err(Fault),
    }
}
