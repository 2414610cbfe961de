//! What was put on standard output, as far as hints need it.

use ov_base::Refusal;
use ov_io::{Fault, Sink};
use std::str;

/// A sink that remembers which refusal was put to it.
#[derive(Drop)]
pub struct Heard<S: Sink> {
    sink: S,
    refusal: Option<Refusal>,
}

impl<S: Sink> Heard<S> {
    /// Listens to this sink, which had nothing yet.
    pub fn new(sink: S) -> Heard<S> {
        Heard {
            sink,
            refusal: None,
        }
    }

    /// The refusal that was put to it last, if one was.
    pub fn refusal(&self) -> Option<Refusal> {
        self.refusal
    }
}

// The refusal whose line these bytes are, `refused NUMBER WORD`.
fn refusal_in(bytes: &[u8]) -> Option<Refusal> {
    let line = str::from_utf8(bytes).ok()?;
    let (number, _) = line.strip_prefix("refused ")?.split_once(' ')?;
    Refusal::from_number(number.parse().ok()?)
}

impl<S: Sink> Sink for Heard<S> {
    ghost tells = { record {
      written = λ s. S.tells.written s.sink;
      faults = λ s. S.tells.faults s.sink;
      borrow = λ s. S.tells.borrow s.sink;
      puts = λ a b. S.tells.puts a.sink b.sink;
    } };

    fn put(&mut self, bytes: &[u8]) -> Result<(), Fault> {
        match refusal_in(bytes) {
            Some(refusal) => self.refusal = Some(refusal),
            None => {}
        }
        self.sink.put(bytes)
    }
}
