//! The body of a file in a script, gathered over pieces of any size.
ghost use Rattle.std.specs.Prelude.{◌≡◌, ◌≢◌, ℕ, List, ◌++◌, ◌+◌, ◌<◌, ◌≤◌, length, min, vec_len, Ok, IfOk, OnOk, IsErr, IsErrOf, IfSome, IfNone, ⊤};
ghost use Rattle.ov_io.specs.Calls.{IsCallOf};
ghost use Rattle.ov_script.specs.Feed.{text_of};
ghost use Rattle.ov_script.specs.Finding.{Gathers, TakesLf, TakesBelow, UsesBelow};
ghost use Rattle.ov_script.specs.NoItem.{IsReadFault};

use crate::ended::Ended;
use crate::feed::Feed;
use crate::next::ScriptFault;
use ov_base::Memory;
use ov_io::Source;

/// What follows a body.
#[derive(Drop)]
pub enum Behind {
    /// An LF.
    Lf,
    /// Another byte.
    Other,
    /// The end of the text.
    Nothing,
}

// Makes room for the bytes of a piece, by as many as there are already or more, but never for more
// than `count` bytes.
fn make_room(bytes: &mut Vec<u8>, piece: usize, count: usize) -> Result<(), Memory>
    requires { vec_len bytes.old + piece ≤ count }
    ensures { bytes.new.items ≡ bytes.old.items }
{
    let len = bytes.len();
    let more = piece.max(len).min(count - len);
    if bytes.capacity() - len < piece {
        bytes.reserve_exact(more)?;
    }
    Ok(())
}

// Moves the pending bytes to the end of the vector, which gets at most `count` bytes.
fn move_pending<S: Source + Drop>(
    feed: &mut Feed<S>,
    bytes: &mut Vec<u8>,
    count: usize,
) -> Result<(), Memory>
    requires { vec_len bytes.old ≤ count }
    ensures moved { OnOk result ((piece : List ℕ) × (bytes.new.items ≡ bytes.old.items ++ piece)
        × (feed.old.pending ≡ piece ++ feed.new.pending)
        × (length bytes.new.items ≡ min count (vec_len bytes.old + length feed.old.pending))) }
    ensures same { feed.new.source ≡ feed.old.source }
{
    let pending = feed.pending();
    let piece = pending.len().min(count - bytes.len());
    make_room(bytes, piece, count)?;
    let (front, _) = pending.split_at(piece);
    bytes.extend_from_slice(front)?;
    feed.advance(piece);
    Ok(())
}

// Gathers this many bytes, or none where the text ends before.
fn gather<S: Source + Drop>(
    feed: &mut Feed<S>,
    count: usize,
) -> Result<Option<Vec<u8>>, ScriptFault>
    ensures bytes { IfOk result (λ found. IfSome found (λ bytes.
        (vec_len bytes ≡ count)
        × UsesBelow S.tells count feed.old feed.new bytes.items)) }
    ensures none { IfOk result (λ found. IfNone found
        (IfSome (text_of S.tells feed.old) (λ text. length text < count))) }
    ensures needed { TakesBelow S.tells count feed.old.pending
        ⊤ (IsErrOf result ScriptFault.Read) feed.old.source feed.new.source }
    ensures call { IsCallOf S.tells (IsErrOf result ScriptFault.Read)
        feed.old.source feed.new.source }
{
    let mut bytes = Vec::new(feed.alloc());
    'pieces: loop {
        move_pending(feed, &mut bytes, count)?;
        if bytes.len() == count {
            return Ok(Some(bytes));
        }
        if feed.fill()? == 0 {
            return Ok(None);
        }
    }
}

// Uses an LF, if one is there.
fn take_lf<S: Source + Drop>(feed: &mut Feed<S>) -> Result<Behind, ScriptFault>
    ensures found { IfOk result (TakesLf S.tells feed.old feed.new) }
    ensures needed { TakesBelow S.tells 1 feed.old.pending
        (result ≢ Ok Behind.Lf) (IsErrOf result ScriptFault.Read)
        feed.old.source feed.new.source }
    ensures call { IsCallOf S.tells (IsErrOf result ScriptFault.Read)
        feed.old.source feed.new.source }
{
    if feed.pending().is_empty() {
        feed.fill()?;
    }
    match feed.pending() {
        [] => Ok(Behind::Nothing),
        [b'\n', ..] => {
            feed.advance(1);
            Ok(Behind::Lf)
        }
        _ => Ok(Behind::Other),
    }
}

// How many bytes of a body are gathered: all, or one more than may be read.
fn count_of(room: usize, size: usize) -> usize
    ensures { result ≡ min (room + 1) size }
{
    if size > room { room + 1 } else { size }
}

/// Takes a body of `size` bytes and its LF, where `room` bytes may be read.
pub fn body_of<S: Source + Drop>(
    feed: &mut Feed<S>,
    room: usize,
    size: usize,
) -> Result<Vec<u8>, Ended>
    ensures found { Gathers S.tells room size feed.old feed.new result }
    ensures needed { TakesBelow S.tells (min room size + 1) feed.old.pending
        (IsErr result) (IsReadFault result) feed.old.source feed.new.source }
    ensures call { IsCallOf S.tells (IsReadFault result) feed.old.source feed.new.source }
{
    let Some(bytes) = gather(feed, count_of(room, size))? else {
        return Err(Ended::Bad);
    };
    if size > room {
        return Err(Ended::Long);
    }
    match take_lf(feed)? {
        Behind::Nothing => Err(Ended::Bad),
        Behind::Lf if size < room => Ok(bytes),
        Behind::Other if size < room => Err(Ended::Bad),
        _ => Err(Ended::Long),
    }
}
