//! One request, and the answer that is read.
ghost use Rattle.std.specs.Prelude.{◌≡◌, IfOk};
ghost use Rattle.ov_fields.specs.Fronts.{AreAllBytes};
ghost use Rattle.ov_wire.specs.declared.request.Request.{Request};
ghost use Rattle.ov_wire.specs.declared.request.Request.TheVariants.{Update};
ghost use Rattle.ov_wire.specs.Frames.{IsFrame};
ghost use Rattle.ov_wire.specs.Requests.{request_bytes, HasRequestForm, HasRequestLimits};
ghost use Rattle.ov_peer.specs.Causes.{HasExchangeCause};
ghost use Rattle.ov_peer.specs.Exchanges.{AreReadAlike, Exchanges};

use crate::{ExchangeFault, Peer, PeerFault};
use ov_base::{Memory, Octets};
use ov_wire::{
    Answer, Request, WireFault, read_answer, requests_fit_frames, update_frame, write_request,
};
use std::alloc::Global;

/// Does nothing. Its contract is that these are bytes.
fn known_bytes(bytes: &[u8])
    ensures { AreAllBytes bytes.now }
{}

/// Asks the peer this frame, and reads the answer as one to the request. It is one to each request
/// that has the frame, and whose answers are read so.
fn ask<P: Peer>(
    alloc: Global,
    peer: &mut P,
    request: &Request,
    frame: &[u8],
) -> Result<Answer, ExchangeFault>
    requires { IsFrame frame.now }
    ensures exchanges { (sent : Request) → frame.now ≡ request_bytes sent
        → AreReadAlike sent request.now → Exchanges P.tells peer.old peer.new sent result }
    ensures same { P.tells.borrow peer.new ≡ P.tells.borrow peer.old }
    ensures cause { HasExchangeCause (P.tells.faults peer.old) (P.tells.faults peer.new) result }
{
    let mut reply = Vec::new(alloc);
    match peer.ask(frame, &mut reply) {
        Ok(()) => {}
        Err(PeerFault::Link) => return Err(ExchangeFault::Link),
        Err(PeerFault::Memory) => return Err(ExchangeFault::Memory),
    }
    known_bytes(&reply);
    match read_answer(alloc, request, &reply) {
        Ok(answer) => Ok(answer),
        Err(WireFault::Bad { at }) => Err(ExchangeFault::BadReply { at }),
        Err(WireFault::Memory) => Err(ExchangeFault::Memory),
    }
}

/// Asks the peer this request, and reads the answer.
pub fn exchange<P: Peer>(
    alloc: Global,
    peer: &mut P,
    request: &Request,
) -> Result<Answer, ExchangeFault>
    requires { HasRequestLimits request.now }
    ensures exchanges { Exchanges P.tells peer.old peer.new request.now result }
    ensures form { HasRequestForm request.now }
    ensures same { P.tells.borrow peer.new ≡ P.tells.borrow peer.old }
    ensures cause { HasExchangeCause (P.tells.faults peer.old) (P.tells.faults peer.new) result }
{
    requests_fit_frames();
    let mut frame = Vec::new(alloc);
    match write_request(request, &mut frame) {
        Ok(()) => ask(alloc, peer, request, &frame),
        Err(Memory) => Err(ExchangeFault::Memory),
    }
}

/// An Update whose answers are read as those to the one with this spelling: none depends on more of
/// it than its first byte.
fn alike(alloc: Global, epoch: u32, spelling: &[u8], tag: &[u8; 32]) -> Result<Request, Memory>
    ensures { IfOk result (λ request.
        AreReadAlike (Update epoch spelling.now tag.now) request) }
{
    let kind = match spelling {
        [kind, ..] => Octets::copy(alloc, &[*kind])?,
        [] => Octets::new(alloc),
    };
    Ok(Request::Update {
        epoch,
        spelling: kind,
        tag: *tag,
    })
}

/// Asks the peer an Update, and reads the answer. Its frame is made around the update's spelling, in
/// the allocation of that where it has the room.
pub fn exchange_update<P: Peer>(
    alloc: Global,
    peer: &mut P,
    epoch: u32,
    spelling: Octets,
    tag: &[u8; 32],
) -> Result<Answer, ExchangeFault>
    requires { HasRequestLimits (Update epoch spelling tag.now) }
    ensures exchanges { Exchanges P.tells peer.old peer.new (Update epoch spelling tag.now) result }
    ensures form { HasRequestForm (Update epoch spelling tag.now) }
    ensures same { P.tells.borrow peer.new ≡ P.tells.borrow peer.old }
    ensures cause { HasExchangeCause (P.tells.faults peer.old) (P.tells.faults peer.new) result }
{
    requests_fit_frames();
    let alike = alike(alloc, epoch, spelling.as_slice(), tag);
    match (alike, update_frame(epoch, spelling, tag)) {
        (Ok(request), Ok(frame)) => ask(alloc, peer, &request, &frame),
        _ => Err(ExchangeFault::Memory),
    }
}
