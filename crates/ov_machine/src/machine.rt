//! The access-matrix machine over frames, for a caller that has both masters.
ghost use Rattle.std.specs.Prelude.{◌≡◌, false, IfNone, IfSome};
ghost use Rattle.ov_images.specs.Images.{keys_of};
ghost use Rattle.ov_script.specs.declared.command.Command.{Command};
ghost use Rattle.ov_owner.specs.Changes.{HasChangeLimits, command_of};
ghost use Rattle.ov_machine.specs.Machine.{IsCommand, IsQuestion, opened_of, plain_masters};
ghost use Rattle.ov_machine.specs.Steps.{IsWholeStep};

use crate::fault::StepFault;
use ov_disk::Disk;
use ov_io::Sink;
use ov_keyfile::Masters;
use ov_owner::{Change, Owner};
use ov_script::{Command, Reply};
use ov_server::{LocalPeer, Server};
use ov_state::Catalogue;
use ov_store::Store;
use std::alloc::Global;
use std::marker::Model;

/// The owner, and the server that it asks, over the store that is kept under its masters. The
/// readers are made by the owner, each for one read.
#[derive(Drop)]
pub struct Machine<D: Disk> {
    pub(crate) owner: Owner,
    pub(crate) peer: LocalPeer<D>,
}

impl<D: Disk> Model for Machine<D> {
    ghost use Rattle.std.specs.Prelude.{◌≡◌};
    ghost use Rattle.ov_images.specs.Images.{keys_of};
    ghost use Rattle.ov_machine.specs.Machine.{KeptOn};

    ghost Value = { KeptOn D };

    ghost view = { λ m. record {
      kept = record {
        masters = m.owner;
        catalogue = m.peer.catalogue;
        stored = m.peer.stored;
      };
      disk = m.peer.disk;
      failed = m.peer.failed;
    } };

    ghost invariant = { λ m. m.peer.keys ≡ keys_of m.owner };
}

/// The change that a command asks for, where it asks for one.
fn change_of(command: &Command) -> Option<Change<'_>>
    requires { IsCommand command.now }
    ensures change { IfSome result (λ change. command_of change ≡ command.now) }
    ensures limits { IfSome result HasChangeLimits }
    ensures question { IfNone result (IsQuestion command.now) }
{
    match command {
        Command::Enrol { user } => Some(Change::Enrol { user }),
        Command::Create { file, list, bytes } => Some(Change::Create {
            file,
            list,
            bytes: bytes.as_slice(),
        }),
        Command::Replace { file, bytes } => Some(Change::Replace {
            file,
            bytes: bytes.as_slice(),
        }),
        Command::Grant { user, file } => Some(Change::Grant { user, file }),
        Command::Revoke { user, file } => Some(Change::Revoke { user, file }),
        Command::Remove { file } => Some(Change::Remove { file }),
        Command::Read { user: _, file: _ } | Command::List { file: _ } | Command::Epoch => None,
    }
}

impl<D: Disk> Machine<D> {
    /// The machine over a store that was opened under these masters, and whose disk hasn't failed
    /// in an update.
    pub fn of(masters: Masters, store: Store<D>) -> Machine<D>
        requires keys { store.keys ≡ keys_of (plain_masters masters) }
        requires sound { store.failed ≡ false }
        ensures masters { result.kept.masters ≡ plain_masters masters }
        ensures store { opened_of result ≡ store }
    {
        Machine {
            owner: Owner::new(masters.base, masters.surface),
            peer: LocalPeer::new(Server::new(store, masters.surface)),
        }
    }

    /// The catalogue.
    pub fn catalogue(&self) -> &Catalogue
        ensures { result.now.catalogue ≡ self.now.kept.catalogue }
    {
        self.peer.server().store().state()
    }

    /// The epoch.
    pub fn epoch(&self) -> u32
        ensures { result ≡ self.now.kept.catalogue.epoch }
    {
        self.catalogue().epoch()
    }

    /// Gives the disk back.
    pub fn into_disk(self) -> D
        ensures { result ≡ self.disk }
    {
        let Machine { owner: _, peer } = self;
        peer.into_server().into_store().close()
    }

    /// One step, at whatever history the machine stands for. Each frame that is asked and replied
    /// for it is put to `trace`. What a read gives, and the trace, are said where the disk tells its
    /// bytes.
    pub fn step<T: Sink>(
        &mut self,
        alloc: Global,
        command: Command,
        trace: &mut T,
    ) -> Result<Reply, StepFault>
        requires command { IsCommand command }
        requires healthy { self.old.failed ≡ false }
        ensures { IsWholeStep D.tells T.tells command self.old self.new trace.old trace.new result }
    {
        match change_of(&command) {
            Some(change) => self.change(alloc, &change, trace),
            None => self.question(alloc, command, trace),
        }
    }
}
