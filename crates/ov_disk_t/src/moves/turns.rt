//! What becomes of bytes, and records, in tests.
ghost use Rattle.std.specs.Prelude.{[], ◌∷◌};

use ov_base::Memory;
use ov_moves::{Move, PIECE_BYTES, Spell, Turn};
use std::alloc::{AllocError, Global};

const _: () = prove!(PIECE_BYTES == 65_536);

/// Bytes stay as they are.
pub struct Same;

impl Turn for Same {
    ghost turned = { λ _ file place byte. byte };

    fn turn(&self, _file: u32, _start: u32, _bytes: &mut [u8]) {}
}

/// Each byte becomes this one.
pub struct Each(pub u8);

impl Turn for Each {
    ghost turned = { λ each file place byte. each.0 };

    fn turn(&self, _file: u32, _start: u32, bytes: &mut [u8]) {
        bytes.fill(self.0);
    }
}

/// A record of one byte.
pub struct Record(pub u8);

impl Spell for Record {
    ghost spelled = { λ record' moves. record'.0 ∷ [] };

    fn spell(&self, alloc: Global, _moves: &[Move]) -> Result<Vec<u8>, Memory> {
        let mut body = Vec::new(alloc);
        body.push(self.0)?;
        Ok(body)
    }
}
