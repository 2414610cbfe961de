//! Reading a key file.
ghost use Rattle.std.specs.Prelude.{◌≡◌, ◌≢◌, ◌≤◌, ◌<◌, ◌⊎◌, ◌↔◌, ℕ, List, length, take, ⊤};
ghost use Rattle.std.specs.Prelude.{IfOk, IfSome, IfNone, IsErr, IsTrue};
ghost use Rattle.std.specs.Io.KnownBytes.{Consumes, IsAtEnd};
ghost use Rattle.ov_base.specs.Causes.{HasCause};
ghost use Rattle.ov_io.specs.Calls.{TakesWhile};
ghost use Rattle.ov_keyfile.specs.KeyFile.{AreLines, IsEnd, IsKeyLine, IsReadAs};

use crate::masters::Masters;
use hex::decode_to_slice;
use ov_base::Key;
use ov_io::{Fault, Source, fill};

// The digits of a key.
const DIGITS: usize = 64;

// A key file without its last LF.
const SHORTEST: usize = 129;

// One byte more than the longest key file has.
const ENOUGH: usize = 131;

/// The key of 64 hexadecimal digits, small or capital.
pub fn key_of(line: &[u8]) -> Option<Key>
    ensures found { IfSome result (λ key. IsKeyLine line.now key.bytes) }
    ensures none { IfNone result ((key : List ℕ) → IsKeyLine line.now key → ⊥) }
{
    let mut bytes = [0; 32];
    match decode_to_slice(line, &mut bytes) {
        Ok(()) => Some(Key { bytes }),
        Err(_) => None,
    }
}

/// The masters, where they differ.
fn differing(base: Key, surface: Key) -> Option<Masters>
    ensures found { IfSome result (λ masters. (masters.base.bytes ≡ base.bytes)
        × (masters.surface.bytes ≡ surface.bytes) × (base.bytes ≢ surface.bytes)) }
    ensures none { IfNone result (base.bytes ≡ surface.bytes) }
{
    if base.bytes == surface.bytes {
        return None;
    }
    Some(Masters { base, surface })
}

/// The masters of two lines of digits.
fn masters_of_lines(first: &[u8], second: &[u8]) -> Option<Masters>
    ensures found { IfSome result (λ masters. IsKeyLine first.now masters.base.bytes
        × IsKeyLine second.now masters.surface.bytes
        × (masters.base.bytes ≢ masters.surface.bytes)) }
    ensures none { IfNone result ((base surface : List ℕ)
        → IsKeyLine first.now base → IsKeyLine second.now surface → base ≡ surface) }
{
    let Some(base) = key_of(first) else {
        return None;
    };
    let Some(surface) = key_of(second) else {
        return None;
    };
    differing(base, surface)
}

/// Whether these bytes may end a key file: an LF, or nothing.
pub fn is_end(end: &[u8]) -> bool
    ensures { IsTrue result ↔ IsEnd end.now }
{
    matches!(end, [] | [b'\n'])
}

/// The two lines of a file, without what ends them.
fn lines_of(file: &[u8]) -> Option<(&[u8], &[u8])>
    ensures found { IfSome result (λ lines. AreLines file.now lines.0.now lines.1.now) }
    ensures none { IfNone result ((first second : List ℕ) → AreLines file.now first second → ⊥) }
{
    if file.len() < SHORTEST {
        return None;
    }
    let (first, rest) = file.split_at(DIGITS);
    let (feed, lines) = rest.split_at(1);
    let (second, end) = lines.split_at(DIGITS);
    if feed == b"\n".as_slice() && is_end(end) {
        Some((first, second))
    } else {
        None
    }
}

/// The masters of a key file of these bytes.
fn masters_of(file: &[u8]) -> Option<Masters>
    ensures { IsReadAs file.now result }
{
    match lines_of(file) {
        Some((first, second)) => masters_of_lines(first, second),
        None => None,
    }
}

/// The masters of the key file that the source has left, or none where what it has left is no key
/// file. It takes at most one byte more than the longest key file has, and doesn't ask again once
/// the source gave nothing.
pub fn read_masters<K: Source>(source: &mut K) -> Result<Option<Masters>, Fault>
    ensures read { IfOk result (λ masters.
        IfSome (K.tells.left source.old) (λ file. IsReadAs file masters)) }
    ensures taken { IfOk result (λ _. (bytes : List ℕ)
        × Consumes (K.tells.left source.old) (K.tells.left source.new) bytes
        × (length bytes ≤ 131)) }
    ensures needed { TakesWhile K.tells (λ seen. length seen < 131)
        ⊤ (IsErr result) source.old source.new }
    ensures same { K.tells.borrow source.new ≡ K.tells.borrow source.old }
    ensures cause { HasCause (K.tells.faults source.old) (K.tells.faults source.new) result }
{
    let mut buffer = [0; ENOUGH];
    let count = fill(source, &mut buffer)?;
    let (file, _) = buffer.split_at(count);
    Ok(masters_of(file))
}
