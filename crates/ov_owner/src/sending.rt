//! Sending an update.
ghost use Rattle.std.specs.Prelude.{◌≡◌, ℕ, List, IfOk};
ghost use Rattle.ov_record.specs.Spelling.{HasForm, IsWithinLimits};
ghost use Rattle.ov_record.specs.Updates.{sealed_update};
ghost use Rattle.ov_record.specs.Forms.{second_form};
ghost use Rattle.ov_wire.specs.Requests.{HasRequestLimits};
ghost use Rattle.ov_wire.specs.declared.request.Request.TheVariants as requests;
ghost use Rattle.ov_owner.specs.Causes.{HasOwnerCause};
ghost use Rattle.ov_owner.specs.Errands.{Errand};
ghost use Rattle.ov_owner.specs.Talks.{update_request};
ghost use Rattle.ov_owner.specs.Helpers.{IsSent, owner_fault, sent_of};

use crate::OwnerFault;
use crate::sealing::Sealed;
use ov_base::limits::SET_WORDS;
use ov_base::{Memory, Octets};
use ov_model::frames_take_updates;
use ov_peer::{ExchangeFault, Peer, exchange_update};
use ov_record::{Form, Update, into_spelling};
use ov_tokens::SurfaceMaster;
use ov_wire::Answer;
use std::alloc::Global;

/// What came of an Update that was sent.
#[derive(Clone, Copy, Debug, PartialEq, Eq)]
pub enum Sent {
    /// The update was accepted, and made this epoch.
    Accepted(u32),
    /// The server is at this epoch.
    Stale(u32),
}

/// The fault of a call whose ask has no answer.
pub fn fault_of(fault: ExchangeFault) -> OwnerFault
    ensures { result ≡ owner_fault fault }
{
    match fault {
        ExchangeFault::Link => OwnerFault::Link,
        ExchangeFault::BadReply { at } => OwnerFault::BadReply { at },
        ExchangeFault::Memory => OwnerFault::Memory,
    }
}

/// What came of an Update by its answer, or why the call ends.
fn sent_of(answer: Answer) -> Result<Sent, OwnerFault>
    ensures { result ≡ sent_of answer }
{
    match answer {
        Answer::Accepted { epoch } => Ok(Sent::Accepted(epoch)),
        Answer::Stale { epoch } => Ok(Sent::Stale(epoch)),
        Answer::Refused { refusal } => Err(OwnerFault::Refused(refusal)),
        Answer::BadTag => Err(OwnerFault::BadTag),
        Answer::DeviceFault => Err(OwnerFault::Device),
        Answer::NoMemory => Err(OwnerFault::Memory),
        _ => Err(OwnerFault::BadReply { at: 0 }),
    }
}

/// The spelling of an update, and the owner's tag of it under the surface master.
fn tagged(
    alloc: Global,
    surface: &SurfaceMaster,
    epoch: u32,
    update: Update<SET_WORDS>,
) -> Result<(Octets, [u8; 32]), Memory>
    requires { IsWithinLimits second_form (sealed_update update) }
    ensures request { IfOk result (λ x. requests.Update epoch x.0 x.1
        ≡ update_request surface.now.bytes epoch (sealed_update update)) }
    ensures form { IfOk result (λ x. HasForm second_form (sealed_update update)) }
    ensures limits { IfOk result (λ x. HasRequestLimits (requests.Update epoch x.0 x.1)) }
{
    frames_take_updates();
    let spelling = into_spelling(alloc, Form::SECOND, update)?;
    let tag = surface.owner_mac(&epoch.to_be_bytes(), spelling.as_slice());
    Ok((spelling, tag))
}

/// Sends an update, whatever the errand and the tries before it. The bytes of a file go into the
/// frame in their list, and aren't copied.
pub fn send<P: Peer>(
    alloc: Global,
    peer: &mut P,
    surface: &SurfaceMaster,
    sealed: Sealed,
) -> Result<Sent, OwnerFault>
    requires { IsWithinLimits second_form (sealed_update sealed.update) }
    ensures sent { (e : Errand) (tries : List ℕ) → IsSent P.tells surface.now.bytes e tries
        sealed.epoch (sealed_update sealed.update) peer.old peer.new result }
    ensures same { P.tells.borrow peer.new ≡ P.tells.borrow peer.old }
    ensures cause { HasOwnerCause (P.tells.faults peer.old) (P.tells.faults peer.new) result }
{
    let Sealed { epoch, update } = sealed;
    let (spelling, tag) = tagged(alloc, surface, epoch, update)?;
    match exchange_update(alloc, peer, epoch, spelling, &tag) {
        Ok(answer) => sent_of(answer),
        Err(fault) => Err(fault_of(fault)),
    }
}
