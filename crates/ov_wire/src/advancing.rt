//! What a piece of a stream does to the frame that isn't whole.

ghost use Rattle.std.specs.Prelude.{◌≡◌, ◌+◌, ◌≤◌, ◌++◌, ◌∷◌, [], false, length, take, IfOk, OnOk, MatchResult};
ghost use Rattle.ov_wire.specs.Cutting.{Advances, CutsOff, Keeps};
ghost use Rattle.ov_wire.specs.Frames.{IsState, is_bad};

use crate::cutting::{Cut, cut_all};
use crate::state::State;
use ov_base::{Memory, Octets};
use std::alloc::Global;

/// Appends the front to the body, an empty frame in the place of the body, and the frames that the
/// rest holds. Where memory was refused, a part of this may have been appended.
fn append_all(
    alloc: Global,
    body: &mut Vec<u8>,
    front: &[u8],
    rest: &[u8],
    frames: &mut Vec<Octets>,
) -> Result<Cut, Memory>
    ensures whole { OnOk result (body.new.items ≡ body.old.items ++ front.now) }
    ensures ok { IfOk result (λ cut. CutsOff rest.now (frames.old.items ++ ([] ∷ []))
        frames.new.items cut.len cut.state) }
    ensures room { IfOk result (λ cut. cut.len ≤ length rest.now + 3) }
    ensures body { take (length body.old.items) body.new.items ≡ body.old.items }
    ensures frames { take (length frames.old.items) frames.new.items ≡ frames.old.items }
{
    body.extend_from_slice(front)?;
    frames.push(Octets::new(alloc))?;
    cut_all(alloc, [0; 4], 0, rest, frames)
}

/// The frame that is whole now, and those behind it.
fn complete(
    alloc: Global,
    wanted: usize,
    body: Vec<u8>,
    front: &[u8],
    rest: &[u8],
    frames: &mut Vec<Octets>,
) -> (State, Result<u64, Memory>)
    requires state { IsState (State.Frame wanted body) }
    requires whole { length body.items + length front.now ≡ wanted }
    ensures { MatchResult result.1
        (λ used. Advances (State.Frame wanted body) result.0 (front.now ++ rest.now)
        frames.old.items frames.new.items used)
        (λ _. Keeps (State.Frame wanted body) result.0 frames.old.items frames.new.items) }
{
    let mut body = body;
    let (len, at) = (body.len(), frames.len());
    match append_all(alloc, &mut body, front, rest, frames) {
        Ok(cut) => {
            frames[at] = Octets::from_vec(body);
            (cut.state, Ok(cut.len + 4 + wanted as u64))
        }
        Err(memory) => {
            body.truncate(len);
            frames.truncate(at);
            (State::Frame { wanted, body }, Err(memory))
        }
    }
}

/// More of the frame that isn't whole, and what is behind it.
fn advance_frame(
    alloc: Global,
    wanted: usize,
    body: Vec<u8>,
    piece: &[u8],
    frames: &mut Vec<Octets>,
) -> (State, Result<u64, Memory>)
    requires { IsState (State.Frame wanted body) }
    ensures { MatchResult result.1
        (λ used. Advances (State.Frame wanted body) result.0 piece.now
        frames.old.items frames.new.items used)
        (λ _. Keeps (State.Frame wanted body) result.0 frames.old.items frames.new.items) }
{
    let mut body = body;
    let missing = wanted - body.len();
    if piece.len() < missing {
        return match body.extend_from_slice(piece) {
            Ok(()) => (State::Frame { wanted, body }, Ok(0)),
            Err(_) => (State::Frame { wanted, body }, Err(Memory)),
        };
    }
    let (front, rest) = piece.split_at(missing);
    complete(alloc, wanted, body, front, rest, frames)
}

/// More of a length field, and what is behind it.
fn advance_length(
    alloc: Global,
    head: [u8; 4],
    filled: usize,
    piece: &[u8],
    frames: &mut Vec<Octets>,
) -> (State, Result<u64, Memory>)
    requires { IsState (State.Length head filled) }
    ensures { MatchResult result.1
        (λ used. Advances (State.Length head filled) result.0 piece.now
        frames.old.items frames.new.items used)
        (λ _. Keeps (State.Length head filled) result.0 frames.old.items frames.new.items) }
{
    let len = frames.len();
    match cut_all(alloc, head, filled, piece, frames) {
        Ok(cut) => (cut.state, Ok(cut.len)),
        Err(memory) => {
            frames.truncate(len);
            (State::Length { head, filled }, Err(memory))
        }
    }
}

/// What a good decoder does with a piece: its next state, and how many bytes the frames that are
/// whole now have with their length fields.
pub fn advance(
    alloc: Global,
    state: State,
    piece: &[u8],
    frames: &mut Vec<Octets>,
) -> (State, Result<u64, Memory>)
    requires state { IsState state }
    requires good { is_bad state ≡ false }
    ensures { MatchResult result.1
        (λ used. Advances state result.0 piece.now frames.old.items frames.new.items used)
        (λ _. Keeps state result.0 frames.old.items frames.new.items) }
{
    match state {
        State::Length { head, filled } => advance_length(alloc, head, filled, piece, frames),
        State::Frame { wanted, body } => advance_frame(alloc, wanted, body, piece, frames),
        State::Bad => (State::Bad, Err(Memory)),
    }
}
