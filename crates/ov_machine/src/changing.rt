//! Changes, by the owner over the machine's server.
ghost use Rattle.std.specs.Prelude.{◌≡◌, false};
ghost use Rattle.ov_owner.specs.Changes.{HasChangeLimits, command_of};
ghost use Rattle.ov_machine.specs.Steps.{IsWholeStep};

use crate::fault::StepFault;
use crate::kept_loans;
use crate::machine::Machine;
use crate::replying::change_reply;
use ov_disk::Disk;
use ov_io::Sink;
use ov_owner::Change;
use ov_peer::Traced;
use ov_script::Reply;
use std::alloc::Global;

impl<D: Disk> Machine<D> {
    /// Makes a change.
    pub fn change<T: Sink>(
        &mut self,
        alloc: Global,
        change: &Change<'_>,
        trace: &mut T,
    ) -> Result<Reply, StepFault>
        requires healthy { self.old.failed ≡ false }
        requires limits { HasChangeLimits change.now }
        ensures { IsWholeStep D.tells T.tells (command_of change.now) self.old self.new
            trace.old trace.new result }
    {
        self.peer.server().known();
        let mut peer = Traced::new(&mut self.peer, trace);
        let made = kept_loans::change(&self.owner, alloc, &mut peer, change);
        let Traced { peer: _, sink: _ } = peer;
        change_reply(made)
    }
}
