//! What frames are sent to.
ghost use Rattle.std.specs.Prelude.{◌≡◌, OnErr, OnOk};
ghost use Rattle.ov_wire.specs.Frames.{IsFrame};
ghost use Rattle.ov_peer.specs.Causes.{HasLinkCause};
ghost use Rattle.ov_peer.specs.Tells.{PeerTells, lent_peer};

use crate::PeerFault;

/// What frames are sent to: each request is a frame, and gets a frame.
pub trait Peer {
    /// How the peer is asked and fails, which history it serves, how often it has failed, and which
    /// loan it is.
    ghost tells: { PeerTells Self };

    /// Sends a frame and gets one, in place of what was in `reply`. Both are without their length
    /// fields.
    fn ask(&mut self, request: &[u8], reply: &mut Vec<u8>) -> Result<(), PeerFault>
        requires { IsFrame request.now }
        ensures asked { OnOk result (tells.asked self.old request.now reply.new.items self.new) }
        ensures failed { OnErr result (tells.failed self.old request.now self.new) }
        ensures frame { OnOk result (IsFrame reply.new.items) }
        ensures same { tells.borrow self.new ≡ tells.borrow self.old }
        ensures cause { HasLinkCause (tells.faults self.old) (tells.faults self.new) result };
}

impl<P: Peer> Peer for &mut P {
    ghost tells = { lent_peer P.tells };

    fn ask(&mut self, request: &[u8], reply: &mut Vec<u8>) -> Result<(), PeerFault> {
        Peer::ask(&mut **self, request, reply)
    }
}
