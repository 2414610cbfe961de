//! A server whose listings are asked for ahead, so that their requests don't wait for one another.
ghost use Rattle.std.specs.Prelude.{◌≡◌, ◌↔◌, ◌≤◌, IsTrue, OnOk, ⊤};
ghost use Rattle.ov_base.specs.Causes.{Rose};
ghost use Rattle.ov_wire.specs.Frames.{IsFrame};

use crate::spots::{Spot, is_at, put_at, put_framed, spot_of};
use ov_base::limits::MAX_FRAME_BYTES;
use ov_base::{Memory, Octets};
use ov_io::Stream;
use ov_peer::{Peer, PeerFault};
use ov_wire::{Decoder, FeedFault, kinds};
use std::alloc::Global;

// How many requests are sent at most whose replies weren't taken. They have 70 bytes at most, so all of
// them fit into what a connection holds, and sending them never waits.
const WINDOW: usize = 256;

// How many bytes are taken at once.
const PIECE: usize = 8192;

// The part of the catalogue that has the files.
const FILES: u8 = 5;

// Whether the bytes are a frame.
fn is_frame(bytes: &[u8]) -> bool
    ensures { IsTrue result ↔ IsFrame bytes.now }
{
    0 < bytes.len() && bytes.len() <= MAX_FRAME_BYTES as usize
}

// A server behind a stream, and what was sent to it ahead.
#[derive(Drop)]
struct Ahead<L> {
    alloc: Global,
    link: L,
    decoder: Decoder,
    // The frames that came, and how many of them were taken.
    came: Vec<Octets>,
    taken: usize,
    // How many requests were sent ahead and not asked for yet, the first of them, and what is sent next.
    count: usize,
    front: Option<Spot>,
    behind: Option<Spot>,
    // How many replies come first that nobody asks for.
    unwanted: usize,
    // The requests for the lists of the files whose pages came.
    lists: Vec<Octets>,
}

impl<L: Stream + Drop> Ahead<L> {
    // The server behind this stream, which was asked nothing yet.
    fn new(alloc: Global, link: L) -> Result<Ahead<L>, Memory> {
        let decoder = Decoder::new(alloc)?;
        Ok(Ahead {
            alloc,
            link,
            decoder,
            came: Vec::new(alloc),
            taken: 0,
            count: 0,
            front: None,
            behind: None,
            unwanted: 0,
            lists: Vec::new(alloc),
        })
    }

    // Appends requests that are sent ahead, where half of the window is free.
    fn put_ahead(&mut self, bytes: &mut Vec<u8>) -> Result<(), Memory> {
        if self.count > WINDOW / 2 {
            return Ok(());
        }
        for _ in self.count..WINDOW {
            let Some(spot) = self.behind else {
                return Ok(());
            };
            if !put_at(&self.lists, spot, bytes)? {
                return Ok(());
            }
            self.behind = Some(spot.next());
            self.count = self.count.saturating_add(1);
        }
        Ok(())
    }

    // Sends a request, unless it was sent ahead, and those that may follow it.
    fn send(&mut self, request: &[u8]) -> Result<(), PeerFault> {
        let mut bytes = Vec::new(self.alloc);
        match self.front {
            Some(spot) if 0 < self.count && is_at(&self.lists, spot, request) => {
                self.count = self.count.saturating_sub(1);
                self.front = Some(spot.next());
            }
            _ => {
                self.unwanted = self.unwanted.saturating_add(self.count);
                self.count = 0;
                self.front = match spot_of(&self.lists, request) {
                    Some(spot) => Some(spot.next()),
                    None => None,
                };
                self.behind = self.front;
                put_framed(request, &mut bytes).map_err(|_| PeerFault::Memory)?;
            }
        }
        self.put_ahead(&mut bytes).map_err(|_| PeerFault::Memory)?;
        if bytes.is_empty() {
            return Ok(());
        }
        match self.link.put(&bytes) {
            Ok(()) => Ok(()),
            Err(_) => Err(PeerFault::Link),
        }
    }

    // Takes bytes until a frame came that wasn't taken yet.
    fn fill(&mut self) -> Result<(), PeerFault> {
        if self.taken < self.came.len() {
            return Ok(());
        }
        self.came.clear();
        self.taken = 0;
        let mut room = [0; PIECE];
        for _ in 0..MAX_FRAME_BYTES {
            let count = match self.link.take(&mut room) {
                Ok(0) | Err(_) => return Err(PeerFault::Link),
                Ok(count) => count,
            };
            let (piece, _) = room.split_at(count);
            match self.decoder.feed(piece, &mut self.came) {
                Ok(()) => {}
                Err(FeedFault::Memory) => return Err(PeerFault::Memory),
                Err(FeedFault::BadFrame { at: _ }) => return Err(PeerFault::Link),
            }
            if !self.came.is_empty() {
                return Ok(());
            }
        }
        Err(PeerFault::Link)
    }

    // Takes the next frame into `reply`.
    fn take_frame(&mut self, reply: &mut Vec<u8>) -> Result<(), PeerFault>
        ensures { OnOk result (IsFrame reply.new.items) }
    {
        self.fill()?;
        let Some(frame) = self.came.get(self.taken) else {
            return Err(PeerFault::Link);
        };
        if !is_frame(frame.as_slice()) {
            return Err(PeerFault::Link);
        }
        reply.clear();
        match reply.extend_from_slice(frame.as_slice()) {
            Ok(()) => {}
            Err(_) => return Err(PeerFault::Memory),
        }
        self.taken = self.taken.saturating_add(1);
        Ok(())
    }

    // Keeps what a reply says of requests to come: the name in the page of a file, or that there are no
    // more pages.
    fn learn(&mut self, request: &[u8], reply: &[u8]) -> Result<(), Memory> {
        match (request, reply) {
            ([kind, part, ..], [_, 1, count, rest @ ..]) if *kind == kinds::PAGE => {
                match rest.split_at_checked(*count as usize) {
                    Some((name, _)) if *part == FILES && *count != 0 => {
                        let mut list = Vec::new(self.alloc);
                        list.push(kinds::LIST)?;
                        list.push(*count)?;
                        list.extend_from_slice(name)?;
                        self.lists.push(Octets::from_vec(list))?;
                    }
                    _ => {}
                }
            }
            ([kind, ..], _) if *kind == kinds::PAGE => self.behind = None,
            ([kind, ..], _) if *kind == kinds::HELLO => self.lists.clear(),
            _ => {}
        }
        Ok(())
    }

    // Sends a request and takes its reply, behind those that nobody asked for.
    fn exchange(&mut self, request: &[u8], reply: &mut Vec<u8>) -> Result<(), PeerFault>
        ensures { OnOk result (IsFrame reply.new.items) }
    {
        self.send(request)?;
        for _ in 0..self.unwanted {
            self.take_frame(reply)?;
        }
        self.unwanted = 0;
        self.take_frame(reply)?;
        match self.learn(request, reply) {
            Ok(()) => Ok(()),
            Err(Memory) => Err(PeerFault::Memory),
        }
    }
}

/// A server behind a stream. Behind the request for a page it sends those for the pages after it, and
/// behind the one for a list those for the files whose pages came, up to a window. Replies come in the
/// order of requests, so one that is asked for in that order is there, or on its way; and what wasn't
/// asked for after all is passed over. The server is asked what it would be asked one at a time, in
/// that order, and perhaps some pages and lists more, which change nothing. After the first ask without
/// a reply it is lost, and asked nothing more. It tells no history.
#[derive(Drop)]
pub struct AheadPeer<L> {
    ahead: Ahead<L>,
    // The fault of the first ask that had no reply.
    lost: Option<PeerFault>,
    faults: u64,
}

impl<L: Stream + Drop> AheadPeer<L> {
    /// A server behind this stream, which was asked nothing yet.
    pub fn new(alloc: Global, link: L) -> Result<AheadPeer<L>, Memory> {
        let ahead = Ahead::new(alloc, link)?;
        Ok(AheadPeer {
            ahead,
            lost: None,
            faults: 0,
        })
    }

    /// The stream.
    pub fn link(&self) -> &L {
        &self.ahead.link
    }

    // Loses the peer by this fault, which counts.
    fn lose(&mut self, fault: PeerFault)
        ensures rose { Rose self.old.faults self.new.faults }
        ensures later { self.old.faults ≤ self.new.faults }
    {
        self.lost = Some(fault);
        self.faults = self.faults.saturating_add(1);
    }
}

impl<L: Stream + Drop> Peer for AheadPeer<L> {
    ghost tells = { record {
      asked = λ p request reply q. ⊤;
      failed = λ p request q. ⊤;
      serves = λ p v. ⊥;
      faults = λ p. p.faults;
      borrow = λ p. 0;
      told = λ p q request reply v a s. absurd s;
      left = λ p q request v f s. absurd s;
    } };

    fn ask(&mut self, request: &[u8], reply: &mut Vec<u8>) -> Result<(), PeerFault> {
        let exchanged = match self.lost {
            Some(fault) => Err(fault),
            None => self.ahead.exchange(request, reply),
        };
        match exchanged {
            Ok(()) => Ok(()),
            Err(fault) => {
                self.lose(fault);
                Err(fault)
            }
        }
    }
}
