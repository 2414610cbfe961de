//! A caller over any peer, and what the peers here do. The frames are those of a store that begins
//! empty.
ghost use Rattle.std.specs.Prelude.{◌≡◌, ℕ, List, IfOk};
ghost use Rattle.ov_record.specs.Updates.{SealedUpdate};
ghost use Rattle.ov_history.specs.Sealed.{catalogue_of};
ghost use Rattle.ov_protocol.specs.Serving.{Service, followed, later};
ghost use Rattle.ov_wire.specs.declared.answer.Answer.TheVariants as answers;
ghost use Rattle.ov_wire.specs.declared.answer.Welcome.{Welcome};
ghost use Rattle.ov_peer.specs.Causes.{HasExchangeCause};

use ov_base::Octets;
use ov_io::MemSink;
use ov_peer::*;
use ov_wire::{Answer, Request};
use std::alloc::Global;
use std::test::Fail;

/// The epoch in an answer to Hello. Where it isn't a Welcome, the server had no memory.
fn epoch_in(answer: Answer) -> Result<u32, ExchangeFault>
    ensures welcome { IfOk result (λ epoch. (w : Welcome) × (answer ≡ answers.Welcome w)
        × (epoch ≡ w.epoch)) }
{
    match answer {
        Answer::Welcome(welcome) => Ok(welcome.epoch),
        _ => Err(ExchangeFault::Memory),
    }
}

/// Asks any peer for its epoch. It is the epoch of the history that the peer serves afterwards,
/// which goes on from the one that it served by what others did.
fn epoch_of<P: Peer>(alloc: Global, peer: &mut P) -> Result<u32, ExchangeFault>
    ensures told { (v : Service) → P.tells.serves peer.old v → IfOk result (λ epoch.
        (others : List SealedUpdate) × P.tells.serves peer.new (later v others)
        × (epoch ≡ (catalogue_of v.surface (followed v.history others)).epoch)) }
    ensures same { P.tells.borrow peer.new ≡ P.tells.borrow peer.old }
{
    asks_are_told::<P>();
    match exchange(alloc, peer, &Request::Hello) {
        Ok(answer) => epoch_in(answer),
        Err(fault) => Err(fault),
    }
}

/// A Welcome of mode Delta at epoch 3, whose check value is zeros.
const WELCOME: [u8; 38] = [
    0x81, 1, 0, 0, 0, 3, 0, 0, 0, 0, 0, 0, 0, 0, 0, 0, 0, 0, 0, 0, 0, 0, 0, 0, 0, 0, 0, 0, 0, 0, 0,
    0, 0, 0, 0, 0, 0, 0,
];

/// A peer that gives these two replies.
fn two_replies(
    alloc: Global,
    first: &[u8],
    second: &[u8],
    fails: &[u8],
) -> Result<FixedPeer, Fail> {
    let mut replies = Vec::new(alloc);
    replies.push(Octets::copy(alloc, first)?)?;
    replies.push(Octets::copy(alloc, second)?)?;
    Ok(FixedPeer::new(replies, Octets::copy(alloc, fails)?))
}

#[test]
fn an_epoch_is_read(rt: HostRuntime) -> Result<(), Fail> {
    let mut peer = two_replies(rt.alloc(), &WELCOME, &[0x81, 2], &[])?;
    assert_eq!(rt; epoch_of(rt.alloc(), &mut peer), Ok(3));
    let bad = Err(ExchangeFault::BadReply { at: 1 });
    assert_eq!(rt; epoch_of(rt.alloc(), &mut (&mut peer)), bad);
    assert_eq!(rt; epoch_of(rt.alloc(), &mut peer), Err(ExchangeFault::Link));
    Ok(())
}

#[test]
fn an_ask_fails_where_it_is_told_to(rt: HostRuntime) -> Result<(), Fail> {
    let mut reply = Vec::new(rt.alloc());
    let mut peer = two_replies(rt.alloc(), &WELCOME, &[], &[0])?;
    assert_eq!(rt; peer.ask(&[1], &mut reply), Err(PeerFault::Link));
    assert_eq!(rt; peer.ask(&[1], &mut reply), Err(PeerFault::Link));
    let mut peer = two_replies(rt.alloc(), &[0x8e], &[0x8a], &[1])?;
    assert_eq!(rt; peer.ask(&[1], &mut reply), Ok(()));
    assert_eq!(rt; reply.as_slice(), [0x8e].as_slice());
    assert_eq!(rt; peer.ask(&[1], &mut reply), Err(PeerFault::Link));
    Ok(())
}

#[test]
fn frames_are_traced(rt: HostRuntime) -> Result<(), Fail> {
    let peer = two_replies(rt.alloc(), &WELCOME, &[0x8e], &[])?;
    let sink = MemSink::new(rt.alloc(), Octets::new(rt.alloc()));
    let mut traced = Traced::new(peer, sink);
    assert_eq!(rt; epoch_of(rt.alloc(), &mut traced), Ok(3));
    let (_, sink) = traced.into_parts();
    assert_eq!(rt; sink.written().len(), 47);
    assert_eq!(rt;
        &sink.written()[..11],
        [0, 0, 0, 1, 1, 0, 0, 0, 38, 0x81, 1].as_slice()
    );
    Ok(())
}

#[test]
fn an_accepted_is_told_by_its_kind(rt: HostRuntime) {
    assert_eq!(rt; is_accepted(&[0x84, 0, 0, 0, 8]), true);
    assert_eq!(rt; is_accepted(&[0x89, 0, 0, 0, 8]), false);
    assert_eq!(rt; is_accepted(&[]), false);
}

#[test]
fn faults_have_texts(rt: HostRuntime) -> Result<(), Fail> {
    let text = format!(in rt.alloc(); "{}", PeerFault::Link)?;
    assert_eq!(rt; text.as_str(), "the link failed");
    let text = format!(in rt.alloc(); "{}", ExchangeFault::BadReply { at: 7 })?;
    assert_eq!(rt; text.as_str(), "the reply is no answer (byte 7)");
    Ok(())
}
