//! What line is at the front of a text, found over pieces of any size.
ghost use Rattle.std.specs.Prelude.{◌≡◌, ◌≢◌, ℕ, List, Option, ◌∷◌, ◌++◌, ◌<◌, ◌≤◌, length, take, Ok, Err, IfOk, IsErr, IfSome, IfNone, MatchBool};
ghost use Rattle.std.specs.Io.KnownBytes.{IsAtEnd, prepend_known};
ghost use Rattle.ov_io.specs.Calls.{IsCallOf};
ghost use Rattle.ov_script.specs.declared.front.Front.TheVariants.{Start};
ghost use Rattle.ov_script.specs.Finding.{Finds, IsSettled, UsesLine};
ghost use Rattle.ov_script.specs.LineFeeds.{NoLf};
ghost use Rattle.ov_script.specs.LineEnds.{may_go_on};
ghost use Rattle.ov_script.specs.LineFronts.{run};
ghost use Rattle.ov_script.specs.Taking.{IsUnsettled, TakesWhatItNeeds};
ghost use Rattle.ov_script.specs.NoItem.{IsReadFault, IsWhyNone};

use crate::ended::Ended;
use crate::feed::Feed;
use crate::first_line::{FirstLine, read_line};
use crate::front::Front;
use crate::line_end::may_go_on;
use crate::next::ScriptFault;
use memchr::memchr;
use ov_io::Source;
use std::alloc::Global;

/// The first line of an item.
#[derive(Drop)]
pub struct Line {
    /// What the line says.
    pub said: FirstLine,
    /// How many bytes the line has, its LF included.
    pub size: usize,
}

/// What the bytes that came are, whatever follows.
#[derive(Drop)]
pub enum Seen {
    /// A whole line, and more.
    Whole(Line),
    /// A line that may go on.
    Open(Front),
}

// Where the first LF is, of which none is among the first `seen` bytes.
fn first_lf(bytes: &[u8], seen: usize) -> Option<usize>
    requires within { seen ≤ length bytes.now }
    requires seen { NoLf (take seen bytes.now) }
    ensures found { IfSome result (λ n. (line rest : List ℕ)
        × NoLf line × (length line ≡ n) × (bytes.now ≡ line ++ 10 ∷ rest)) }
    ensures none { IfNone result (NoLf bytes.now) }
{
    let (_, fresh) = bytes.split_at(seen);
    match memchr(b'\n', fresh) {
        Some(index) => Some(seen + index),
        None => None,
    }
}

// What the line is that ends at the first LF.
fn line_at(bytes: &[u8], end: usize, alloc: Global) -> Result<Line, Ended>
    requires { (line rest : List ℕ) × NoLf line × (length line ≡ end)
        × (bytes.now ≡ line ++ 10 ∷ rest) }
    ensures found { (room : ℕ) (left : Option (List ℕ))
        → end < room → Finds room bytes.now left result }
    ensures no_fault { IsReadFault result → ⊥ }
{
    let (line, _) = bytes.split_at(end);
    match read_line(line, alloc)? {
        Some(said) => Ok(Line {
            said,
            size: end + 1,
        }),
        None => Err(Ended::Bad),
    }
}

// What is at the front of more than may be read, where no LF is among the bytes that may.
fn front_of(bytes: &[u8], room: usize) -> Ended
    requires past { room < length bytes.now }
    requires no_lf { NoLf (take room bytes.now) }
    ensures found { (left : Option (List ℕ))
        → IsWhyNone room (prepend_known bytes.now left) result }
    ensures no_fault { result ≢ Ended.Fault ScriptFault.Read }
{
    let (front, _) = bytes.split_at(room);
    if may_go_on(Front::Start.run(front), room) {
        Ended::Long
    } else {
        Ended::Bad
    }
}

// Whether the line may go on, of which this many bytes came: `front` is read, and the rest is
// fresh.
fn open_or_bad(front: Front, fresh: &[u8], count: usize) -> Result<Seen, Ended>
    ensures { MatchBool (may_go_on (run front fresh.now) count)
        (result ≡ Ok (Seen.Open (run front fresh.now)))
        (result ≡ Err Ended.Bad) }
{
    let front = front.run(fresh);
    if may_go_on(front, count) {
        Ok(Seen::Open(front))
    } else {
        Err(Ended::Bad)
    }
}

// What is known of these bytes, of which the first `seen` were read and have no LF.
fn settled(
    bytes: &[u8],
    seen: usize,
    front: Front,
    room: usize,
    alloc: Global,
) -> Result<Seen, Ended>
    requires within { seen ≤ length bytes.now }
    requires seen { NoLf (take seen bytes.now) }
    requires front { front ≡ run Start (take seen bytes.now) }
    ensures settled { IsSettled room bytes.now result }
    ensures no_fault { IsReadFault result → ⊥ }
{
    match first_lf(bytes, seen) {
        Some(end) => {
            if end < room {
                Ok(Seen::Whole(line_at(bytes, end, alloc)?))
            } else {
                Err(front_of(bytes, room))
            }
        }
        None => {
            if bytes.len() > room {
                Err(front_of(bytes, room))
            } else {
                let (_, fresh) = bytes.split_at(seen);
                open_or_bad(front, fresh, bytes.len())
            }
        }
    }
}

// What is at the front where the text ends inside an item, or at once.
fn at_end(count: usize) -> Ended
    ensures no_fault { result ≢ Ended.Fault ScriptFault.Read }
    ensures found { (room : ℕ) (bytes : List ℕ) (left : Option (List ℕ))
        → length bytes ≡ count → IsUnsettled room bytes → IsAtEnd left
        → IsWhyNone room (prepend_known bytes left) result }
{
    if count == 0 { Ended::End } else { Ended::Bad }
}

/// Takes bytes until it is known what is at the front of the text, of which `room` bytes may be
/// read, and uses the line that is there.
pub fn find<S: Source + Drop>(feed: &mut Feed<S>, room: usize) -> Result<Line, Ended>
    ensures found { UsesLine S.tells room feed.old feed.new result }
    ensures needed { TakesWhatItNeeds S.tells room feed.old.pending
        (IsErr result) (IsReadFault result) feed.old.source feed.new.source }
    ensures call { IsCallOf S.tells (IsReadFault result) feed.old.source feed.new.source }
{
    let alloc = feed.alloc();
    let mut seen = 0;
    let mut front = Front::Start;
    'pieces: loop {
        let bytes = feed.pending();
        match settled(bytes, seen, front, room, alloc)? {
            Seen::Whole(line) => {
                feed.advance(line.size);
                return Ok(line);
            }
            Seen::Open(open) => {
                front = open;
                seen = bytes.len();
                if feed.fill()? == 0 {
                    return Err(at_end(seen));
                }
            }
        }
    }
}
