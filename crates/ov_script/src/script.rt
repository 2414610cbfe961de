//! Scripts, item by item.
ghost use Rattle.std.specs.Prelude.{◌≡◌, ◌+◌, ◌<◌, ◌≤◌, [], IfOk, IsErr, MatchResult, None};
ghost use Rattle.std.specs.Option.{option_map};
ghost use Rattle.ov_base.specs.declared.limits.TheConstants.{MAX_SCRIPT_BYTES};
ghost use Rattle.ov_io.specs.Calls.{IsCallOf};
ghost use Rattle.ov_script.specs.Finding.{Gives, Tells};
ghost use Rattle.ov_script.specs.NoItem.{IsReadFault};
ghost use Rattle.ov_script.specs.Place.{Place, start, answer_of, PlaceGoesOn};
ghost use Rattle.ov_script.specs.Saying.{SaysOf, IfCommand, IsOfItem};
ghost use Rattle.ov_script.specs.Taking.{EndsReading, IsFreshFault, TakesWhatItNeeds};

use crate::command::Command;
use crate::ended::Ended;
use crate::feed::{Buffer, Feed};
use crate::find::{Line, find};
use crate::first_line::FirstLine;
use crate::item::{Item, bodied};
use crate::next::{Next, ScriptFault};
use ov_base::Memory;
use ov_base::limits::MAX_SCRIPT_BYTES;
use ov_io::Source;
use std::alloc::Global;
use std::marker::Model;

/// A script that is read from a source, item by item.
#[derive(Drop)]
pub struct Script<S> {
    feed: Feed<S>,
    line: u64,
    room: usize,
    ended: Option<Ended>,
}

impl<S> Model for Script<S> {
    ghost Value = { Place S };

    ghost view = { λ s. record {
      source = s.feed.source;
      pending = s.feed.pending;
      line = s.line;
      room = s.room;
      ended = option_map (answer_of s.line) s.ended;
    } };

    ghost invariant = { λ s. s.line + s.room ≤ MAX_SCRIPT_BYTES + 1 };
}

// Uses the item that is at the front of the text, of which `room` bytes may be read.
fn item_of<S: Source + Drop>(feed: &mut Feed<S>, room: usize) -> Result<Item, Ended>
    ensures found { Tells S.tells room feed.old feed.new result }
    ensures size { IfOk result (λ item. (0 < item.size) × (item.lines ≤ item.size)) }
    ensures needed { TakesWhatItNeeds S.tells room feed.old.pending
        (IsErr result) (IsReadFault result) feed.old.source feed.new.source }
    ensures call { IsCallOf S.tells (IsReadFault result) feed.old.source feed.new.source }
{
    let Line { said, size } = find(feed, room)?;
    match said {
        FirstLine::Whole(command) => Ok(Item {
            command,
            size,
            lines: 1,
        }),
        FirstLine::WithBody { head, size: body } => bodied(feed, room, head, size, body),
    }
}

impl<S: Source + Drop> Script<S> {
    /// A script that begins with what this source has left. Where memory is refused the source is
    /// let go.
    pub fn new(alloc: Global, source: S) -> Result<Script<S>, Memory>
        ensures { IfOk result (λ script. script ≡ start source) }
    {
        Ok(Script::over(Buffer::new(alloc)?, source))
    }

    /// A script that begins with what this source has left, with room that was made before.
    pub fn over(buffer: Buffer, source: S) -> Script<S>
        ensures { result ≡ start source }
    {
        Script {
            feed: Feed::over(buffer, source),
            line: 1,
            room: MAX_SCRIPT_BYTES as usize,
            ended: None,
        }
    }

    /// Gives the source back.
    pub fn into_source(self) -> S
        ensures { result ≡ self.source }
    {
        let Script {
            feed,
            line: _,
            room: _,
            ended: _,
        } = self;
        feed.into_source()
    }

    /// The next item, or how the reading ended. An end is final: later calls answer it again, with
    /// nothing read.
    pub fn next(&mut self) -> Result<Next, ScriptFault>
        ensures says { self.old.ended ≡ None
            → IfOk result (λ next. SaysOf S.tells self.old next self.new) }
        ensures item { IfOk result IsOfItem }
        ensures needed { TakesWhatItNeeds S.tells self.old.room self.old.pending
            (EndsReading result) (IsFreshFault self.old result) self.old.source self.new.source }
        ensures ended { PlaceGoesOn self.old result self.new }
        ensures progress { IfOk result (λ next. IfCommand next (self.new.room < self.old.room)) }
        ensures call { IsCallOf S.tells (IsFreshFault self.old result)
            self.old.source self.new.source }
    {
        if let Some(ended) = self.ended {
            return ended.answer(self.line);
        }
        match self.item() {
            Ok(command) => Ok(Next::Command(command)),
            Err(ended) => {
                self.ended = Some(ended);
                ended.answer(self.line)
            }
        }
    }

    // The command of the next item, where the reading has not ended.
    fn item(&mut self) -> Result<Command, Ended>
        requires { self.old.ended ≡ None }
        ensures says { Gives S.tells self.old result self.new }
        ensures needed { TakesWhatItNeeds S.tells self.old.room self.old.pending
            (IsErr result) (IsReadFault result) self.old.source self.new.source }
        ensures moved { MatchResult result
            (λ _. self.new.room < self.old.room) (λ _. self.new.line ≡ self.old.line) }
        ensures ended { self.new.ended ≡ None }
        ensures call { IsCallOf S.tells (IsReadFault result) self.old.source self.new.source }
    {
        let item = item_of(&mut self.feed, self.room)?;
        self.line += item.lines as u64;
        self.room -= item.size;
        Ok(item.command)
    }
}
