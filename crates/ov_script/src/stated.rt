//! The stated workload, command by command.
ghost use Rattle.std.specs.Prelude.{◌≡◌, ◌≤◌, ◌+◌, ◌-◌, ◌<◌, IfOk, OnErr};
ghost use Rattle.ov_script.specs.Workload.{Gives, Progress, command_at, creations, drawn_at};
ghost use Rattle.ov_script.specs.declared.drawn.TheConstants.{WORKLOAD_USERS, MAX_WORKLOAD};

use crate::command::Command;
use crate::drawing::Words;
use crate::drawn::{Drawn, Kind, MAX_WORKLOAD, WORKLOAD_USERS};
use crate::drawn_command::{command_by, user};
use ov_base::Memory;
use std::alloc::Global;
use std::marker::Model;

/// A workload that is gone through command by command.
#[derive(Drop)]
pub struct Workload {
    // What the next drawn command's words say, and the words behind them.
    drawn: Drawn,
    words: Words,
    number: u64,
    count: u32,
    place: u32,
    made: u32,
    alloc: Global,
}

impl Model for Workload {
    ghost Value = { Progress };

    ghost view = { λ w. record { number = w.number; count = w.count; place = w.place } };

    ghost invariant = { λ w. (w.count ≤ MAX_WORKLOAD) × (w.place ≤ WORKLOAD_USERS + w.count)
        × (w.words ≡ record { number = w.number; drawn = w.place - WORKLOAD_USERS + 1 })
        × (w.drawn ≡ drawn_at w.number (w.place - WORKLOAD_USERS))
        × (w.made ≡ creations w.number (w.place - WORKLOAD_USERS)) };
}

impl Workload {
    /// The workload of this number, with this many commands behind its enrolments.
    pub fn new(alloc: Global, number: u64, count: u32) -> Workload
        requires { count ≤ MAX_WORKLOAD }
        ensures { result ≡ record { number = number; count = count; place = 0 } }
    {
        let mut words = Words::new(number);
        Workload {
            drawn: words.draw(),
            words,
            number,
            count,
            place: 0,
            made: 0,
            alloc,
        }
    }

    /// The next command, or none behind the last one. Where memory is refused nothing changes, and
    /// a later call gives the same command.
    pub fn next(&mut self) -> Result<Option<Command>, Memory>
        ensures gives { IfOk result (λ next. Gives self.old next self.new) }
        ensures err { OnErr result (self.new ≡ self.old) }
    {
        if self.place == WORKLOAD_USERS + self.count {
            return Ok(None);
        }
        let command = self.command()?;
        self.advance();
        Ok(Some(command))
    }

    // The command at the place.
    fn command(&self) -> Result<Command, Memory>
        ensures { IfOk result (λ command. command ≡ command_at self.now.number self.now.place) }
    {
        if self.place < WORKLOAD_USERS {
            let user = user(self.place, self.alloc)?;
            return Ok(Command::Enrol { user });
        }
        command_by(
            self.place - WORKLOAD_USERS,
            self.made,
            self.drawn,
            self.alloc,
        )
    }

    // Goes to the next place.
    pub(crate) fn advance(&mut self)
        requires { self.old.place < WORKLOAD_USERS + self.old.count }
        ensures { self.new ≡ record self.old { place = self.old.place + 1 } }
    {
        self.place += 1;
        if self.place > WORKLOAD_USERS {
            if let Kind::Creates = self.drawn.kind {
                self.made += 1;
            }
            self.drawn = self.words.draw();
        }
    }
}
