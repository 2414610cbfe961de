//! The header of a Book.
ghost use Rattle.std.specs.Prelude.{◌≡◌, ◌≤◌, ℕ, length, take, drop, slice_index, IfNone, IfOk, IfSome};
ghost use Rattle.ov_base.specs.Modes.{mode_byte};
ghost use Rattle.ov_journal.specs.Birth.{IsHeaderFrame};
ghost use Rattle.ov_journal.specs.Book.{IsFormat, is_first, magic, spelled};

use ov_base::{Memory, Mode};
use std::alloc::Global;

/// What the header of a store holds.
#[derive(Clone, Copy, Debug, PartialEq, Eq)]
pub struct Header {
    /// The format of the store, 1 or 2: the last digit of its magic as a number.
    pub format: u8,
    /// When a file has a surface layer.
    pub mode: Mode,
    /// The epoch at which the store began.
    pub first: u32,
    /// The check value of the base master.
    pub base_check: [u8; 32],
    /// The check value of the surface master.
    pub surface_check: [u8; 32],
}

impl Header {
    // Whether the store is of the first format.
    pub(crate) fn is_first(&self) -> bool
        ensures { result ≡ is_first (spelled self.now) }
    {
        self.format == 1
    }
}

/// How many bytes a header has, its gate among them.
pub(crate) const HEADER: u64 = 78;

// What follows the gate of a header of the first format.
const FIRST_MAGIC: [u8; 8] = *b"OVERENC1";

// What follows the gate of a header of the second format.
const SECOND_MAGIC: [u8; 8] = *b"OVERENC2";

// The header of a new store behind its gate, and the closed gate of a record that isn't there.
pub(crate) fn frame_of(alloc: Global, header: &Header) -> Result<Vec<u8>, Memory>
    requires { header.now.format ≡ 2 }
    ensures { IfOk result (λ frame. IsHeaderFrame header.now frame.items) }
{
    let mut frame = Vec::new(alloc);
    frame.extend_from_slice(&SECOND_MAGIC)?;
    frame.push(header.mode.byte())?;
    frame.extend_from_slice(&header.first.to_be_bytes())?;
    frame.extend_from_slice(&header.base_check)?;
    frame.extend_from_slice(&header.surface_check)?;
    frame.push(0)?;
    Ok(frame)
}

// The format whose magic follows the gate, where one does.
pub(crate) fn format_in(front: &[u8]) -> Option<u8>
    requires { 9 ≤ length front.now }
    ensures some { IfSome result (λ format.
        IsFormat format × (take 8 (drop 1 front.now) ≡ magic format)) }
    ensures none { IfNone result ((format : ℕ) → IsFormat format
        → take 8 (drop 1 front.now) ≡ magic format → ⊥) }
{
    let (_, rest) = front.split_at(1);
    let (found, _) = rest.split_at(8);
    if found == FIRST_MAGIC.as_slice() {
        Some(1)
    } else if found == SECOND_MAGIC.as_slice() {
        Some(2)
    } else {
        None
    }
}

// The header of these 78 bytes, which begin with an open gate and the magic of this format.
pub(crate) fn header_in(front: &[u8], format: u8, mode: Mode) -> Header
    requires long { length front.now ≡ 78 }
    requires gate { slice_index front.now 0 ≡ 1 }
    requires magic { take 8 (drop 1 front.now) ≡ magic format }
    requires mode { slice_index front.now 9 ≡ mode_byte mode }
    ensures { front.now ≡ spelled result }
{
    let (_, rest) = front.split_at(10);
    let (first, rest) = rest.split_at(4);
    let (base, surface) = rest.split_at(32);
    Header {
        format,
        mode,
        first: u32::from_be_bytes(array4(first)),
        base_check: array32(base),
        surface_check: array32(surface),
    }
}

// The four bytes as an array.
pub(crate) fn array4(bytes: &[u8]) -> [u8; 4]
    requires { length bytes.now ≡ 4 }
    ensures { result ≡ bytes.now }
{
    let mut array = [0; 4];
    array.copy_from_slice(bytes);
    array
}

// The 32 bytes as an array.
fn array32(bytes: &[u8]) -> [u8; 32]
    requires { length bytes.now ≡ 32 }
    ensures { result ≡ bytes.now }
{
    let mut array = [0; 32];
    array.copy_from_slice(bytes);
    array
}
