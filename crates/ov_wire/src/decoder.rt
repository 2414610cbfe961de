//! Frames from pieces of a stream.

ghost use Rattle.std.specs.Prelude.{◌≡◌, ◌+◌, ◌≤◌, [], false, true, length, IfOk};
ghost use Rattle.ov_base.specs.declared.limits.TheConstants.{MAX_FRAME_BYTES};
ghost use Rattle.ov_wire.specs.Frames.{Decoding, Feeds, FeedsAll, IsState, is_bad, state_rest, verdict};

use crate::FeedFault;
use crate::advancing::advance;
use crate::state::State;
use ov_base::{Memory, Octets};
use std::alloc::Global;
use std::marker::Model;
use std::mem;

/// Cuts a stream into frames, whatever the pieces it comes in.
///
/// A decoder keeps the frame that isn't whole, and no more memory for it than the bytes of it that
/// came need.
#[derive(Drop)]
pub struct Decoder {
    alloc: Global,
    start: u64,
    state: State,
}

impl Model for Decoder {
    ghost Value = { Decoding };

    ghost view = { λ d.
        record { start = d.start; rest = state_rest d.state; bad = is_bad d.state } };

    ghost invariant = { λ d. IsState d.state };
}

impl Decoder {
    /// A decoder at the start of a stream.
    pub fn new(alloc: Global) -> Result<Decoder, Memory>
        ensures { IfOk result (λ d. d ≡ record { start = 0; rest = []; bad = false }) }
    {
        Ok(Decoder {
            alloc,
            start: 0,
            state: State::Length {
                head: [0; 4],
                filled: 0,
            },
        })
    }

    /// How many bytes were taken of a frame that isn't whole, its length field included; none
    /// after a length field outside its limits.
    pub fn pending(&self) -> u64
        ensures count { result ≡ length self.now.rest }
        ensures bad { self.now.bad ≡ true → result ≡ 0 }
        ensures most { result ≤ MAX_FRAME_BYTES + 3 }
    {
        match &self.state {
            State::Length { filled, .. } => *filled as u64,
            State::Frame { body, .. } => 4 + body.len() as u64,
            State::Bad => 0,
        }
    }

    fn is_bad(&self) -> bool
        ensures { result ≡ self.now.bad }
    {
        match &self.state {
            State::Bad => true,
            _ => false,
        }
    }

    fn verdict(&self) -> Result<(), FeedFault>
        ensures { result ≡ verdict self.now }
    {
        match &self.state {
            State::Bad => Err(FeedFault::BadFrame { at: self.start }),
            _ => Ok(()),
        }
    }

    /// Takes a piece of the stream, and appends the frames that are whole now, each without its
    /// length field. Where memory was refused nothing was taken.
    pub fn feed(&mut self, piece: &[u8], frames: &mut Vec<Octets>) -> Result<(), FeedFault>
        ensures { Feeds self.old self.new piece.now frames.old.items frames.new.items result }
    {
        if self.is_bad() {
            return Err(FeedFault::BadFrame { at: self.start });
        }
        let state = mem::replace(&mut self.state, State::Bad);
        let (state, taken) = advance(self.alloc, state, piece, frames);
        self.state = state;
        match taken {
            Err(_) => Err(FeedFault::Memory),
            Ok(used) => {
                self.start = self.start.saturating_add(used);
                self.verdict()
            }
        }
    }
    /// Takes pieces of the stream, one after the other. Memory is refused between two of them:
    /// those before it were taken.
    pub fn feed_all(&mut self, pieces: &[Octets], frames: &mut Vec<Octets>) -> Result<(), FeedFault>
        ensures { FeedsAll self.old self.new pieces.now frames.old.items frames.new.items result }
    {
        // A decoder that is given no pieces also says whether it met a bad length field before.
        self.feed(&[], frames)?;
        for piece in pieces {
            self.feed(piece.as_slice(), frames)?;
        }
        Ok(())
    }
}
