//! A peer that gives the replies that it was made with.
ghost use Rattle.std.specs.Prelude.{◌≡◌, ◌↔◌, IsTrue, IfSome, IfNone, OnErr, OnOk, Contains, ℕ, List};
ghost use Rattle.ov_wire.specs.Frames.{IsFrame};
ghost use Rattle.ov_peer.specs.Causes.{HasLinkCause};
ghost use Rattle.ov_peer.specs.Fixed.{FailsAsk, GivesReply, HasReply, Playing, Plays, PutsNext};

use crate::{Peer, PeerFault};
use ov_base::Octets;
use ov_base::limits::MAX_FRAME_BYTES;
use std::marker::Model;

/// Replies that are given one after the other, whatever is asked. It tells no history.
#[derive(Drop)]
pub struct FixedPeer {
    replies: Vec<Octets>,
    fails: Octets,
    asks: usize,
    faults: u64,
}

impl Model for FixedPeer {
    ghost Value = { Playing };

    ghost view = { λ p. record {
      replies = p.replies.items;
      fails = p.fails;
      asks = p.asks;
      faults = p.faults;
    } };
}

/// Whether the ask of this number is among those that fail.
fn is_failing(fails: &Octets, ask: usize) -> bool
    ensures { IsTrue result ↔ Contains fails.now ask }
{
    fails.as_slice().iter().any(|n| usize::from(*n) == ask)
}

/// Whether the bytes are a frame.
fn is_frame(bytes: &[u8]) -> bool
    ensures { IsTrue result ↔ IsFrame bytes.now }
{
    0 < bytes.len() && bytes.len() <= MAX_FRAME_BYTES as usize
}

impl FixedPeer {
    /// A peer that gives these replies. It fails exactly the asks whose numbers, from 0 and below
    /// 256, are in `fails`, and those for which there is no reply that is a frame.
    pub fn new(replies: Vec<Octets>, fails: Octets) -> FixedPeer
        ensures { result ≡ record {
          replies = replies.items;
          fails = fails;
          asks = 0;
          faults = 0;
        } }
    {
        FixedPeer {
            replies,
            fails,
            asks: 0,
            faults: 0,
        }
    }

    /// The reply to the next ask, and None where it has none.
    fn next_reply(&self) -> Option<&[u8]>
        ensures some { IfSome result (λ reply. HasReply self.now reply.now) }
        ensures none { IfNone result ((reply : List ℕ) → HasReply self.now reply → ⊥) }
    {
        if is_failing(&self.fails, self.asks) {
            return None;
        }
        match self.replies.as_slice().get(self.asks) {
            Some(reply) => match is_frame(reply.as_slice()) {
                true => Some(reply.as_slice()),
                false => None,
            },
            None => None,
        }
    }

    /// Puts the reply to the next ask in place of what was in `reply`.
    fn put_next(&self, reply: &mut Vec<u8>) -> Result<bool, PeerFault>
        ensures { PutsNext self.now reply.new.items result }
    {
        reply.clear();
        match self.next_reply() {
            Some(frame) => match reply.extend_from_slice(frame) {
                Ok(()) => Ok(true),
                Err(_) => Err(PeerFault::Memory),
            },
            None => Ok(false),
        }
    }
}

impl Peer for FixedPeer {
    ghost tells = { record {
      asked = λ p request reply q. GivesReply p reply q;
      failed = λ p request q. FailsAsk p q;
      serves = λ p v. ⊥;
      faults = λ p. p.faults;
      borrow = λ _. 0;
      told = λ p q request reply v a s. absurd s;
      left = λ p q request v f s. absurd s;
    } };

    fn ask(&mut self, request: &[u8], reply: &mut Vec<u8>) -> Result<(), PeerFault>
        requires { IsFrame request.now }
        ensures asked { OnOk result (GivesReply self.old reply.new.items self.new) }
        ensures failed { OnErr result (FailsAsk self.old self.new) }
        ensures frame { OnOk result (IsFrame reply.new.items) }
        ensures cause { HasLinkCause self.old.faults self.new.faults result }
        ensures plays { Plays self.old self.new reply.new.items result }
    {
        let _request = request;
        let next = self.put_next(reply)?;
        self.asks = self.asks.saturating_add(1);
        match next {
            true => Ok(()),
            false => {
                self.faults = self.faults.saturating_add(1);
                Err(PeerFault::Link)
            }
        }
    }
}
