//! Updates.
ghost use Rattle.std.specs.Prelude.{◌≡◌, ◌≤◌, ◌+◌, ℕ, List, length, Ok};
ghost use Rattle.ov_base.specs.declared.limits.TheConstants.{MAX_FRAME_BYTES};
ghost use Rattle.ov_record.specs.Spelling.{HasForm};
ghost use Rattle.ov_record.specs.Updates.{sealed_update};
ghost use Rattle.ov_record.specs.Forms.{second_form};
ghost use Rattle.ov_wire.specs.declared.request.Request.TheVariants as requests;
ghost use Rattle.ov_wire.specs.RequestReading.{request_of};
ghost use Rattle.ov_protocol.specs.Updating.{owner_tag, spelling_place};
ghost use Rattle.ov_peer.specs.Disks.{HasUpdate};
ghost use Rattle.ov_server.specs.Answering.{serving_of, AsksServer};

use crate::reply::{reply_fault, reply_with};
use crate::server::Server;
use ov_base::{Memory, Octets};
use ov_disk::Disk;
use ov_keyed::same;
use ov_record::{Form, RecordFault, Update, read_whole};
use ov_state::WIDTH;
use ov_store::StoreFault;
use ov_tokens::SurfaceMaster;
use ov_wire::Answer;
use std::alloc::Global;

/// The place in a frame of an Update at which its spelling begins, behind kind and epoch.
const SPELLING_PLACE: u32 = 5;

/// The owner's tag of an update's spelling, made at an epoch.
fn owner_tag(surface: &SurfaceMaster, epoch: u32, spelling: &Octets) -> [u8; 32]
    requires { length spelling.now ≤ MAX_FRAME_BYTES }
    ensures { result ≡ owner_tag surface.now.bytes epoch spelling.now }
{
    surface.owner_mac(&epoch.to_be_bytes(), spelling.as_slice())
}

impl<D: Disk> Server<D> {
    /// Makes an update that is tagged rightly and made at the epoch, or answers why not.
    fn make(
        &mut self,
        alloc: Global,
        update: Update<WIDTH>,
        reply: &mut Vec<u8>,
    ) -> Result<(), Memory>
        requires { HasForm second_form (sealed_update update) }
        ensures { (request : List ℕ)
            → HasUpdate (serving_of self.old) request (sealed_update update)
            → AsksServer D.tells self.old self.new request reply.new.items result }
    {
        // The reply is made before the first write of the disk, so that what comes after it takes
        // no memory. At the last epoch the update is refused.
        let epoch = self.store.state().epoch().saturating_add(1);
        reply_with(Ok(Answer::Accepted { epoch }), reply)?;
        match self.store.update(alloc, update) {
            Ok(_) => Ok(()),
            Err(StoreFault::Refused(refusal)) => reply_with(Ok(Answer::Refused { refusal }), reply),
            Err(StoreFault::BadPlan { at }) => {
                let at = SPELLING_PLACE + at;
                reply_with(Ok(Answer::BadRequest { at }), reply)
            }
            Err(StoreFault::Disk) => {
                reply_fault(reply);
                Ok(())
            }
            Err(StoreFault::Failed) => {
                reply_fault(reply);
                Ok(())
            }
            Err(StoreFault::Memory) => reply_with(Err(Memory), reply),
        }
    }

    /// Answers an Update: the owner's tag is looked at first, then the epoch, and then the update.
    pub(crate) fn answer_update(
        &mut self,
        epoch: u32,
        spelling: Octets,
        tag: &[u8; 32],
        reply: &mut Vec<u8>,
    ) -> Result<(), Memory>
        requires { length spelling ≤ MAX_FRAME_BYTES }
        ensures { (request : List ℕ)
            → request_of request ≡ Ok (requests.Update epoch spelling tag.now)
            → AsksServer D.tells self.old self.new request reply.new.items result }
    {
        if !same(&owner_tag(&self.surface, epoch, &spelling), tag) {
            return reply_with(Ok(Answer::BadTag), reply);
        }
        let now = self.store.state().epoch();
        if epoch != now {
            return reply_with(Ok(Answer::Stale { epoch: now }), reply);
        }
        let alloc = *reply.allocator();
        match read_whole(alloc, Form::SECOND, spelling) {
            Ok(update) => self.make(alloc, update, reply),
            Err(RecordFault::BadRecord { at }) => {
                let at = SPELLING_PLACE + at;
                reply_with(Ok(Answer::BadRequest { at }), reply)
            }
            Err(RecordFault::Memory) => reply_with(Err(Memory), reply),
        }
    }
}
