//! What the machine's server is asked that changes nothing.
ghost use Rattle.std.specs.Prelude.{◌≡◌, false};
ghost use Rattle.ov_script.specs.declared.command.Command.TheVariants.{Epoch, List as ListNames};
ghost use Rattle.ov_script.specs.declared.command.Command.TheVariants.{Read};
ghost use Rattle.ov_machine.specs.Machine.{IsQuestion};
ghost use Rattle.ov_machine.specs.Steps.{IsWholeStep};

use crate::fault::StepFault;
use crate::kept_loans;
use crate::machine::Machine;
use crate::replying::{epoch_reply, found_reply, names_reply};
use ov_base::Name;
use ov_disk::Disk;
use ov_io::Sink;
use ov_peer::Traced;
use ov_script::{Command, Reply};
use std::alloc::Global;

impl<D: Disk> Machine<D> {
    /// Gives the epoch.
    pub fn hello<T: Sink>(&mut self, alloc: Global, trace: &mut T) -> Result<Reply, StepFault>
        requires healthy { self.old.failed ≡ false }
        ensures { IsWholeStep D.tells T.tells Epoch self.old self.new trace.old trace.new result }
    {
        let mut peer = Traced::new(&mut self.peer, trace);
        let told = kept_loans::hello(&self.owner, alloc, &mut peer);
        let Traced { peer: _, sink: _ } = peer;
        epoch_reply(told)
    }

    /// Gives the names in a file's list.
    pub fn list<T: Sink>(
        &mut self,
        alloc: Global,
        file: Name,
        trace: &mut T,
    ) -> Result<Reply, StepFault>
        requires healthy { self.old.failed ≡ false }
        ensures { IsWholeStep D.tells T.tells
            (ListNames file) self.old self.new trace.old trace.new result }
    {
        let mut peer = Traced::new(&mut self.peer, trace);
        let told = kept_loans::list(&self.owner, alloc, &mut peer, &file);
        let Traced { peer: _, sink: _ } = peer;
        names_reply(file, told)
    }

    /// Gives a file's bytes to a user. The reader is handed the keys of the user's two roots alone.
    pub fn read<T: Sink>(
        &mut self,
        alloc: Global,
        user: Name,
        file: Name,
        trace: &mut T,
    ) -> Result<Reply, StepFault>
        requires healthy { self.old.failed ≡ false }
        ensures { IsWholeStep D.tells T.tells
            (Read user file) self.old self.new trace.old trace.new result }
    {
        let mut peer = Traced::new(&mut self.peer, trace);
        let found = kept_loans::read(&self.owner, alloc, &mut peer, &user, &file);
        let Traced { peer: _, sink: _ } = peer;
        found_reply(user, file, found)
    }
    /// Answers a command that asks for no change.
    pub fn question<T: Sink>(
        &mut self,
        alloc: Global,
        command: Command,
        trace: &mut T,
    ) -> Result<Reply, StepFault>
        requires question { IsQuestion command }
        requires healthy { self.old.failed ≡ false }
        ensures { IsWholeStep D.tells T.tells command self.old self.new trace.old trace.new result }
    {
        match command {
            Command::Read { user, file } => self.read(alloc, user, file, trace),
            Command::List { file } => self.list(alloc, file, trace),
            Command::Epoch => self.hello(alloc, trace),
            Command::Enrol { user: _ }
            | Command::Create {
                file: _,
                list: _,
                bytes: _,
            }
            | Command::Grant { user: _, file: _ }
            | Command::Revoke { user: _, file: _ }
            | Command::Remove { file: _ }
            | Command::Replace { file: _, bytes: _ } => unreachable!(),
        }
    }
}
