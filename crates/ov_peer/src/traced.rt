//! A peer whose frames are put to a sink.
ghost use Rattle.std.specs.Prelude.{◌≡◌};
ghost use Rattle.ov_peer.specs.Traced.{traced_tells};

use crate::{Peer, PeerFault, put_frame};
use ov_io::{Fault, Sink};

/// A peer, each frame of which is put to a sink, behind its length field: the request before it is
/// asked, and the reply after it came. A request that can't be put isn't asked.
#[derive(Drop)]
pub struct Traced<P, T> {
    pub peer: P,
    pub sink: T,
}

impl<P: Peer + Drop, T: Sink + Drop> Traced<P, T> {
    /// Puts the frames of the peer to the sink.
    pub fn new(peer: P, sink: T) -> Traced<P, T>
        ensures peer { result.peer ≡ peer }
        ensures sink { result.sink ≡ sink }
    {
        Traced { peer, sink }
    }

    /// Gives both back.
    pub fn into_parts(self) -> (P, T)
        ensures peer { result.0 ≡ self.peer }
        ensures sink { result.1 ≡ self.sink }
    {
        (self.peer, self.sink)
    }
}

impl<P: Peer + Drop, T: Sink + Drop> Peer for Traced<P, T> {
    ghost tells = { traced_tells P.tells T.tells };

    fn ask(&mut self, request: &[u8], reply: &mut Vec<u8>) -> Result<(), PeerFault> {
        match put_frame(&mut self.sink, request) {
            Ok(()) => {}
            Err(Fault) => return Err(PeerFault::Link),
        }
        self.peer.ask(request, reply)?;
        match put_frame(&mut self.sink, reply) {
            Ok(()) => Ok(()),
            Err(Fault) => Err(PeerFault::Link),
        }
    }
}
