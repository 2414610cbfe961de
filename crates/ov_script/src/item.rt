//! A whole item, and one with a body.
ghost use Rattle.std.specs.Prelude.{◌≡◌, ◌+◌, ◌-◌, min, ◌≤◌, length, IsErr};
ghost use Rattle.ov_io.specs.Calls.{IsCallOf};
ghost use Rattle.ov_script.specs.Finding.{MakesItem, TakesBelow};
ghost use Rattle.ov_script.specs.LineFeeds.{lf_count};
ghost use Rattle.ov_script.specs.NoItem.{IsReadFault};

use crate::body::body_of;
use crate::command::Command;
use crate::ended::Ended;
use crate::feed::Feed;
use crate::first_line::Head;
use ov_base::Octets;
use ov_io::Source;

/// A whole item, which was used.
#[derive(Drop)]
pub struct Item {
    /// The command of the item.
    pub command: Command,
    /// How many bytes the item has.
    pub size: usize,
    /// How many of the item's bytes are LF.
    pub lines: usize,
}

// How many of the bytes are LF.
fn lf_count(bytes: &[u8]) -> usize
    ensures count { result ≡ lf_count bytes.now }
    ensures within { result ≤ length bytes.now }
{
    let mut count = 0;
    for byte in bytes {
        if *byte == b'\n' {
            count += 1;
        }
    }
    count
}

/// The item of a command with a body, whose line of `line` bytes was used.
pub fn bodied<S: Source + Drop>(
    feed: &mut Feed<S>,
    room: usize,
    head: Head,
    line: usize,
    size: usize,
) -> Result<Item, Ended>
    requires { line ≤ room }
    ensures found { MakesItem S.tells room head line size feed.old feed.new result }
    ensures needed { TakesBelow S.tells (min (room - line) size + 1) feed.old.pending
        (IsErr result) (IsReadFault result) feed.old.source feed.new.source }
    ensures call { IsCallOf S.tells (IsReadFault result) feed.old.source feed.new.source }
{
    let bytes = body_of(feed, room - line, size)?;
    let lines = lf_count(&bytes) + 2;
    Ok(Item {
        command: head.with_body(Octets::from_vec(bytes)),
        size: line + size + 1,
        lines,
    })
}
