//! A source that gives bytes in pieces. No clause says what is read, so that no proof computes it.
ghost use Rattle.std.specs.Prelude.{None};

use ov_io::{Fault, Source};

/// Gives borrowed bytes in pieces, then the same bytes as often as they are repeated, and fails at
/// one of its calls.
#[derive(Drop)]
pub struct Pieces<'a> {
    bytes: &'a [u8],
    rest: &'a [u8],
    piece: usize,
    repeats: u32,
    fails: u64,
    takes: u64,
}

impl<'a> Pieces<'a> {
    /// A source of these bytes, whose call of the number `fails` fails.
    pub fn of(bytes: &'a [u8], piece: usize, repeats: u32, fails: u64) -> Pieces<'a> {
        Pieces {
            bytes,
            rest: bytes,
            piece,
            repeats,
            fails,
            takes: 0,
        }
    }
}

impl Source for Pieces<'_> {
    ghost tells = { record {
      left = λ _. None;
      faults = λ s. s.takes;
      borrow = λ _. 0;
      takes = λ _ _. Unit {0};
    } };

    fn take(&mut self, buf: &mut [u8]) -> Result<usize, Fault> {
        let call = self.takes;
        self.takes = call.saturating_add(1);
        if call == self.fails {
            return Err(Fault);
        }
        if self.rest.is_empty() && self.repeats > 0 {
            self.repeats -= 1;
            self.rest = self.bytes;
        }
        let count = self.rest.len().min(buf.len()).min(self.piece);
        let (now, rest) = self.rest.split_at(count);
        buf[..count].copy_from_slice(now);
        self.rest = rest;
        Ok(count)
    }
}
