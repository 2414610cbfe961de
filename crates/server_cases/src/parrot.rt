//! An answerer that gives each frame back.
ghost use Rattle.std.specs.Prelude.{◌≡◌, []};

use ov_base::Memory;
use ov_peer::Answerer;

/// Answers each frame with a Bytes of itself. It has no memory for a frame that begins with 0xff.
#[derive(Drop)]
pub struct Parrot {}

impl Answerer for Parrot {
    ghost tells = { record {
      reached = λ _ list _. list ≡ [];
      replies = λ _ _ _ _. Unit {0};
      epoch_of = λ _. 0;
      stuck = λ _. Unit {0};
    } };

    fn answer(&mut self, request: &[u8], reply: &mut Vec<u8>) -> Result<(), Memory> {
        if request[0] == 0xff || request.len() > 1_000 {
            return Err(Memory);
        }
        reply.clear();
        reply.push(0x86)?;
        reply.extend_from_slice(request)?;
        Ok(())
    }

    fn epoch(&self) -> u32 {
        0
    }
}
