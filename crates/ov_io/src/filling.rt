//! Filling a buffer from a source.
ghost use Rattle.std.specs.Prelude.{◌≡◌, ◌≤◌, ◌<◌, ◌⊎◌, ◌*◌, length, take, ⊤, IfOk, IsErr};
ghost use Rattle.std.specs.Io.KnownBytes.{Consumes, IsAtEnd};
ghost use Rattle.ov_base.specs.Causes.{HasCause};
ghost use Rattle.ov_io.specs.Calls.{TakesWhile};

use crate::{Fault, Source};

/// Takes bytes until the buffer is full or the input ends, and says how many there are. It doesn't
/// take again once the source gave nothing.
pub fn fill<K: Source>(source: &mut K, buffer: &mut [u8]) -> Result<usize, Fault>
    ensures long { length buffer.new ≡ length buffer.old }
    ensures taken { IfOk result (λ n. (n ≤ length buffer.old)
        × Consumes (K.tells.left source.old) (K.tells.left source.new) (take n buffer.new)) }
    ensures all { IfOk result (λ n. (n ≡ length buffer.old) ⊎ IsAtEnd (K.tells.left source.new)) }
    ensures needed { TakesWhile K.tells (λ seen. length seen < length buffer.old) ⊤ (IsErr result)
        source.old source.new }
    ensures same { K.tells.borrow source.new ≡ K.tells.borrow source.old }
    ensures cause { HasCause (K.tells.faults source.old) (K.tells.faults source.new) result }
{
    let mut end = 0;
    'pieces: while end < buffer.len() {
        let (_, room) = buffer.split_at_mut(end);
        let count = source.take(room)?;
        if count == 0 {
            return Ok(end);
        }
        end += count;
    }
    Ok(end)
}
