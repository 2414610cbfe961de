//! Cutting bytes into frames.

ghost use Rattle.std.specs.Prelude.{◌≡◌, ◌+◌, ◌≤◌, ◌<◌, ◌++◌, length, take, IfOk};
ghost use Rattle.ov_wire.specs.Cutting.{CutsOff, IsFound};

use crate::state::State;
use ov_base::limits::MAX_FRAME_BYTES;
use ov_base::{Memory, Octets};
use std::alloc::Global;

/// What is at the front of bytes.
pub enum Found<'a> {
    /// A part of a length field.
    InLength { head: [u8; 4], filled: usize },
    /// A length field, and a part of the frame.
    InFrame { wanted: usize, body: &'a [u8] },
    /// A frame, and the bytes after it.
    Whole { frame: &'a [u8], rest: &'a [u8] },
    /// A length field outside its limits.
    BadLength,
}

/// The bytes of a length field with more of them.
fn filled_with(head: [u8; 4], filled: usize, front: &[u8]) -> [u8; 4]
    requires { filled + length front.now ≤ 4 }
    ensures { take (filled + length front.now) result ≡ take filled head ++ front.now }
{
    let mut bytes = head;
    bytes[filled..filled + front.len()].copy_from_slice(front);
    bytes
}

/// What is at the front of the bytes, of which this many of a length field came before.
pub fn find(head: [u8; 4], filled: usize, bytes: &[u8]) -> Found<'_>
    requires { filled < 4 }
    ensures { IsFound (take filled head ++ bytes.now) result }
{
    let missing = 4 - filled;
    if bytes.len() < missing {
        return Found::InLength {
            head: filled_with(head, filled, bytes),
            filled: filled + bytes.len(),
        };
    }
    let (front, rest) = bytes.split_at(missing);
    find_behind(filled_with(head, filled, front), rest)
}

/// What follows a whole length field.
fn find_behind(head: [u8; 4], bytes: &[u8]) -> Found<'_>
    ensures { IsFound (head ++ bytes.now) result }
{
    let wanted = u32::from_be_bytes(head) as usize;
    if wanted == 0 {
        Found::BadLength
    } else if wanted > MAX_FRAME_BYTES as usize {
        Found::BadLength
    } else if bytes.len() < wanted {
        Found::InFrame {
            wanted,
            body: bytes,
        }
    } else {
        let (frame, rest) = bytes.split_at(wanted);
        Found::Whole { frame, rest }
    }
}

/// How many bytes frames and their length fields have, and what comes after them.
#[derive(Drop)]
pub struct Cut {
    pub len: u64,
    pub state: State,
}

/// Appends the frames that the bytes hold, of which this many of a length field came before. Where
/// memory was refused, some of them may have been appended.
pub fn cut_all(
    alloc: Global,
    head: [u8; 4],
    filled: usize,
    bytes: &[u8],
    frames: &mut Vec<Octets>,
) -> Result<Cut, Memory>
    requires { filled < 4 }
    ensures ok { IfOk result (λ cut. CutsOff (take filled head ++ bytes.now)
        frames.old.items frames.new.items cut.len cut.state) }
    ensures room { IfOk result (λ cut. cut.len ≤ length bytes.now + 3) }
    ensures front { take (length frames.old.items) frames.new.items ≡ frames.old.items }
{
    let mut len = 0u64;
    let mut head = head;
    let mut filled = filled;
    let mut rest = bytes;
    loop {
        match find(head, filled, rest) {
            Found::Whole { frame, rest: after } => {
                frames.push(Octets::copy(alloc, frame)?)?;
                len += 4 + frame.len() as u64;
                head = [0; 4];
                filled = 0;
                rest = after;
            }
            Found::InLength { head, filled } => {
                let state = State::Length { head, filled };
                return Ok(Cut { len, state });
            }
            Found::InFrame { wanted, body } => {
                let body = body.to_vec(alloc)?;
                let state = State::Frame { wanted, body };
                return Ok(Cut { len, state });
            }
            Found::BadLength => {
                let state = State::Bad;
                return Ok(Cut { len, state });
            }
        }
    }
}
