//! A source with the bytes that were taken from it and not yet used.
ghost use Rattle.std.specs.Prelude.{◌≡◌, ℕ, List, ◌+◌, ◌-◌, ◌≤◌, ◌<◌, [], ◌++◌, length, take, drop, vec_len, MatchResult};
ghost use Rattle.std.specs.Io.KnownBytes.{Consumes, Keeps, IsAtEnd};
ghost use Rattle.ov_base.specs.Causes.{HasCause};
ghost use Rattle.ov_script.specs.Feed.{Fed};
ghost use Rattle.ov_script.specs.declared.feed.TheConstants.{CAPACITY};

use ov_base::Memory;
use ov_io::{Fault, Source};
use std::alloc::Global;
use std::marker::Model;

/// How many bytes a feed has room for: more than the longest line of an item, so that there is
/// always room for the rest of a line.
pub const CAPACITY: usize = 131_072;

/// The room of a feed for bytes that were taken and not yet used.
#[derive(Drop)]
pub struct Buffer {
    bytes: Vec<u8>,
}

impl Model for Buffer {
    ghost Value = { List ℕ };

    ghost view = { λ b. b.bytes.items };

    ghost invariant = { λ b. vec_len b.bytes ≡ CAPACITY };
}

impl Buffer {
    /// Room that holds nothing yet.
    pub fn new(alloc: Global) -> Result<Buffer, Memory> {
        Ok(Buffer {
            bytes: vec![in alloc; 0; CAPACITY]?,
        })
    }
}

/// A source with the bytes that were taken from it and not yet used.
#[derive(Drop)]
pub struct Feed<S> {
    source: S,
    buffer: Vec<u8>,
    start: usize,
    end: usize,
}

impl<S> Model for Feed<S> {
    ghost Value = { Fed S };

    ghost view = { λ f. record {
      source = f.source;
      pending = drop f.start (take f.end f.buffer.items);
    } };

    ghost invariant = { λ f. (f.start ≤ f.end) × (f.end ≤ vec_len f.buffer)
        × (vec_len f.buffer ≡ CAPACITY) };
}

// Moves the bytes from `start` to `end` to the front, and says where it ends there.
fn move_to_front(buffer: &mut Vec<u8>, start: usize, end: usize) -> usize
    requires order { start ≤ end }
    requires within { end ≤ vec_len buffer.old }
    ensures end { result ≡ end - start }
    ensures len { vec_len buffer.new ≡ vec_len buffer.old }
    ensures kept { take result buffer.new.items ≡ drop start (take end buffer.old.items) }
{
    if start > 0 {
        buffer.copy_within(start..end, 0);
    }
    end - start
}

// Takes bytes from the source to the place behind the first `end` bytes, which stay.
fn take_behind<S: Source>(source: &mut S, buffer: &mut Vec<u8>, end: usize) -> Result<usize, Fault>
    requires { end < vec_len buffer.old }
    ensures kept { (vec_len buffer.new ≡ vec_len buffer.old)
        × (take end buffer.new.items ≡ take end buffer.old.items) }
    ensures taken { MatchResult result
        (λ n. Consumes (S.tells.left source.old) (S.tells.left source.new)
        (take n (drop end buffer.new.items))
        × (n ≡ 0 → IsAtEnd (S.tells.left source.new)) × (end + n ≤ vec_len buffer.old))
        (λ _. Keeps (S.tells.left source.old) (S.tells.left source.new)) }
    ensures step { S.tells.takes source.old source.new }
    ensures same { S.tells.borrow source.new ≡ S.tells.borrow source.old }
    ensures cause { HasCause (S.tells.faults source.old) (S.tells.faults source.new) result }
{
    let (_, room) = buffer.split_at_mut(end);
    source.take(room)
}

impl<S: Source + Drop> Feed<S> {
    /// Nothing was taken yet.
    pub fn over(buffer: Buffer, source: S) -> Feed<S>
        ensures { result ≡ record { source = source; pending = [] } }
    {
        Feed {
            source,
            buffer: buffer.bytes,
            start: 0,
            end: 0,
        }
    }

    /// The allocator that the feed was made with.
    pub fn alloc(&self) -> Global {
        *self.buffer.allocator()
    }

    /// The bytes that were taken and not yet used.
    pub fn pending(&self) -> &[u8]
        ensures { result.now ≡ self.now.pending }
    {
        let (taken, _) = self.buffer.split_at(self.end);
        let (_, pending) = taken.split_at(self.start);
        pending
    }

    /// Takes more bytes, and says how many: none at the end of the input.
    pub fn fill(&mut self) -> Result<usize, Fault>
        requires { length self.old.pending < CAPACITY }
        ensures taken { MatchResult result
            (λ n. (more : List ℕ) × (self.new.pending ≡ self.old.pending ++ more)
            × (length more ≡ n)
            × Consumes (S.tells.left self.old.source) (S.tells.left self.new.source) more
            × (n ≡ 0 → IsAtEnd (S.tells.left self.new.source)))
            (λ _. (self.new.pending ≡ self.old.pending)
            × Keeps (S.tells.left self.old.source) (S.tells.left self.new.source)) }
        ensures step { S.tells.takes self.old.source self.new.source }
        ensures same { S.tells.borrow self.new.source ≡ S.tells.borrow self.old.source }
        ensures cause { HasCause (S.tells.faults self.old.source) (S.tells.faults self.new.source)
            result }
    {
        self.end = move_to_front(&mut self.buffer, self.start, self.end);
        self.start = 0;
        let count = take_behind(&mut self.source, &mut self.buffer, self.end)?;
        self.end += count;
        Ok(count)
    }

    /// Uses the first `count` of the pending bytes.
    pub fn advance(&mut self, count: usize)
        requires { count ≤ length self.old.pending }
        ensures { self.new ≡ record {
          source = self.old.source;
          pending = drop count self.old.pending;
        } }
    {
        self.start += count;
    }

    /// Gives the source back.
    pub fn into_source(self) -> S
        ensures { result ≡ self.source }
    {
        let Feed {
            source,
            buffer: _,
            start: _,
            end: _,
        } = self;
        source
    }
}
