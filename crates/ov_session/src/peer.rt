//! A peer behind a stream.
ghost use Rattle.std.specs.Prelude.{◌≡◌, ◌≢◌, ◌<◌, ◌≤◌, ◌^◌, [], length, false, Some, None, IfOk, OnErr, OnOk};
ghost use Rattle.ov_fields.specs.Spelling.{u32};
ghost use Rattle.ov_wire.specs.Frames.{IsFrame, IsFrameLength};
ghost use Rattle.ov_peer.specs.Causes.{HasLinkCause};
ghost use Rattle.ov_session.specs.Links.{IsSameLoan, link};
ghost use Rattle.ov_session.specs.Reading.{ExchangesOrFails, FillsUp, TakesBody, TakesFrame, TakesLength, TakesPiece, faults_after};
ghost use Rattle.ov_session.specs.Replies.{Breaks, CountsFault, Exchanges, HoldsWhatCame, Loses};

use crate::piece::PIECE;
use crate::putting::put_frame;
use ov_base::Memory;
use ov_base::limits::MAX_FRAME_BYTES;
use ov_io::{Fault, Stream, fill};
use ov_peer::{Peer, PeerFault};

/// A server behind a stream: each request is written to it, and the next frame that comes is the
/// reply. After the first ask without a reply it is lost: it answers each further ask with that
/// fault, and neither writes nor reads. It tells no history.
#[derive(Drop)]
pub struct NetPeer<L> {
    link: L,
    // The fault of the first ask that had no reply. That reply may still come, and must not be
    // taken for another's.
    lost: Option<PeerFault>,
    faults: u64,
}

impl<L: Stream + Drop> NetPeer<L> {
    /// A peer behind this stream, which has asked nothing yet.
    pub fn new(link: L) -> Result<NetPeer<L>, Memory>
        ensures { IfOk result (λ peer.
            peer ≡ record { link = link; lost = None; faults = 0 }) }
    {
        Ok(NetPeer {
            link,
            lost: None,
            faults: 0,
        })
    }

    /// The stream.
    pub fn link(&self) -> &L
        ensures { result.now ≡ self.now.link }
    {
        &self.link
    }

    /// Gives the stream back.
    pub fn into_link(self) -> L
        ensures { result ≡ self.link }
    {
        self.link
    }

    // Loses the peer by this fault, which counts where it's the link's.
    fn lose(&mut self, fault: PeerFault)
        ensures link { self.new.link ≡ self.old.link }
        ensures lost { self.new.lost ≡ Some fault }
        ensures counted { self.new.faults ≡ faults_after self.old.faults fault }
        ensures later { self.old.faults ≤ self.new.faults }
    {
        self.lost = Some(fault);
        match fault {
            PeerFault::Link => self.faults = self.faults.saturating_add(1),
            PeerFault::Memory => {}
        }
    }
}

/// Takes bytes until all of `buf` is filled or the input ends, and answers how many.
fn take_into<L: Stream>(stream: &mut L, buf: &mut [u8]) -> Result<usize, Fault>
    ensures fills { FillsUp
        (link L.Source.tells L.Sink.tells stream.old) (link L.Source.tells L.Sink.tells stream.new)
        buf.new result }
    ensures len { length buf.new ≡ length buf.old }
    ensures same { IsSameLoan L.Source.tells L.Sink.tells stream.old stream.new }
{
    fill(stream, buf)
}

/// The number in a length field.
fn number_in(field: [u8; 4]) -> usize
    ensures number { u32 result ≡ field }
    ensures fits { result < 2 ^ 32 }
{
    u32::from_be_bytes(field) as usize
}

/// Reads a frame's length field. It is a fault where the input ends before it is whole, and where
/// it is outside its limits.
fn take_length<L: Stream>(stream: &mut L) -> Result<usize, Fault>
    ensures takes { TakesLength
        (link L.Source.tells L.Sink.tells stream.old) (link L.Source.tells L.Sink.tells stream.new)
        result }
    ensures same { IsSameLoan L.Source.tells L.Sink.tells stream.old stream.new }
{
    let mut head = [0; 4];
    let count = match take_into(stream, &mut head) {
        Ok(count) => count,
        Err(Fault) => return Err(Fault),
    };
    if count < 4 {
        return Err(Fault);
    }
    let wanted = number_in(head);
    if wanted == 0 {
        return Err(Fault);
    }
    if wanted > MAX_FRAME_BYTES as usize {
        return Err(Fault);
    }
    Ok(wanted)
}

/// Reads the next piece of a body of which so many bytes are still to come, and appends it to
/// `reply`.
fn take_piece<L: Stream>(stream: &mut L, left: usize, reply: &mut Vec<u8>) -> Result<(), PeerFault>
    requires { 0 < left }
    ensures takes { TakesPiece
        (link L.Source.tells L.Sink.tells stream.old) (link L.Source.tells L.Sink.tells stream.new)
        left reply.old.items reply.new.items result }
    ensures same { IsSameLoan L.Source.tells L.Sink.tells stream.old stream.new }
{
    let mut room = [0; PIECE];
    let (piece, _) = room.split_at_mut(left.min(PIECE));
    match take_into(stream, piece) {
        Ok(count) => {
            if count < piece.len() {
                return Err(PeerFault::Link);
            }
        }
        Err(Fault) => return Err(PeerFault::Link),
    }
    match reply.extend_from_slice(piece) {
        Ok(()) => Ok(()),
        Err(_) => Err(PeerFault::Memory),
    }
}

/// Reads the frame behind a length field into `reply`, which grows only by what has come.
fn take_body<L: Stream>(stream: &mut L, wanted: usize, reply: &mut Vec<u8>) -> Result<(), PeerFault>
    requires length { IsFrameLength wanted }
    requires empty { reply.old.items ≡ [] }
    ensures takes { TakesBody
        (link L.Source.tells L.Sink.tells stream.old) (link L.Source.tells L.Sink.tells stream.new)
        wanted reply.new.items result }
    ensures same { IsSameLoan L.Source.tells L.Sink.tells stream.old stream.new }
{
    'pieces: while reply.len() < wanted {
        match take_piece(stream, wanted - reply.len(), reply) {
            Ok(()) => {}
            Err(fault) => return Err(fault),
        }
    }
    Ok(())
}

/// Reads the next frame into `reply`.
fn take_frame<L: Stream>(stream: &mut L, reply: &mut Vec<u8>) -> Result<(), PeerFault>
    requires empty { reply.old.items ≡ [] }
    ensures takes { TakesFrame
        (link L.Source.tells L.Sink.tells stream.old) (link L.Source.tells L.Sink.tells stream.new)
        reply.new.items result }
    ensures same { IsSameLoan L.Source.tells L.Sink.tells stream.old stream.new }
{
    match take_length(stream) {
        Ok(wanted) => take_body(stream, wanted, reply),
        Err(Fault) => Err(PeerFault::Link),
    }
}

/// Writes a request, and reads the next frame into `reply`.
fn exchange<L: Stream>(stream: &mut L, request: &[u8], reply: &mut Vec<u8>) -> Result<(), PeerFault>
    requires request { IsFrame request.now }
    requires empty { reply.old.items ≡ [] }
    ensures exchanges { ExchangesOrFails
        (link L.Source.tells L.Sink.tells stream.old) (link L.Source.tells L.Sink.tells stream.new)
        request.now reply.new.items result }
    ensures same { IsSameLoan L.Source.tells L.Sink.tells stream.old stream.new }
{
    match put_frame(stream, request) {
        Ok(()) => take_frame(stream, reply),
        Err(Fault) => Err(PeerFault::Link),
    }
}

impl<L: Stream + Drop> Peer for NetPeer<L> {
    ghost tells = { record {
      asked = λ p request reply q. (p.lost ≡ None)
          × Exchanges (link L.Source.tells L.Sink.tells p.link)
          (link L.Source.tells L.Sink.tells q.link) request reply;
      failed = λ p request q. (q.lost ≢ None)
          × Breaks (link L.Source.tells L.Sink.tells p.link)
          (link L.Source.tells L.Sink.tells q.link) request;
      serves = λ p v. ⊥;
      faults = λ p. p.faults;
      borrow = λ p. L.Source.tells.borrow p.link;
      told = λ p q request reply v a s. absurd s;
      left = λ p q request v f s. absurd s;
    } };

    fn ask(&mut self, request: &[u8], reply: &mut Vec<u8>) -> Result<(), PeerFault>
        requires { IsFrame request.now }
        ensures asked { OnOk result ((self.old.lost ≡ None)
            × Exchanges (link L.Source.tells L.Sink.tells self.old.link)
            (link L.Source.tells L.Sink.tells self.new.link) request.now reply.new.items) }
        ensures failed { OnErr result ((self.new.lost ≢ None)
            × Breaks (link L.Source.tells L.Sink.tells self.old.link)
            (link L.Source.tells L.Sink.tells self.new.link) request.now) }
        ensures frame { OnOk result (IsFrame reply.new.items) }
        ensures same { L.Source.tells.borrow self.new.link ≡ L.Source.tells.borrow self.old.link }
        ensures cause { HasLinkCause self.old.faults self.new.faults result }
        ensures counts { CountsFault self.old.lost self.old.faults self.new.faults
            (link L.Source.tells L.Sink.tells self.old.link)
            (link L.Source.tells L.Sink.tells self.new.link) }
        ensures loses { Loses self.old.lost self.new.lost self.old.link self.new.link result }
        ensures holds { OnErr result (HoldsWhatCame
            (link L.Source.tells L.Sink.tells self.old.link)
            (link L.Source.tells L.Sink.tells self.new.link)
            reply.new.items) }
    {
        reply.clear();
        if let Some(fault) = self.lost {
            self.lose(fault);
            return Err(fault);
        }
        match exchange(&mut self.link, request, reply) {
            Ok(()) => Ok(()),
            Err(fault) => {
                self.lose(fault);
                Err(fault)
            }
        }
    }
}
