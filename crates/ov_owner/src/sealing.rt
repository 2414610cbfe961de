//! Updates, as their owner seals them, from what a server told.
ghost use Rattle.std.specs.Prelude.{◌≡◌, ◌≤◌, length, IfOk};
ghost use Rattle.ov_base.specs.declared.limits.TheConstants.{MAX_FILE_BYTES, MAX_USERS};
ghost use Rattle.ov_record.specs.Spelling.{IsWithinLimits};
ghost use Rattle.ov_record.specs.Updates.{sealed_update};
ghost use Rattle.ov_record.specs.Forms.{second_form};
ghost use Rattle.ov_surface.specs.Coats.{base_text};
ghost use Rattle.ov_wire.specs.AnswersTo.{IsAnswer};
ghost use Rattle.ov_owner.specs.Errands.{created, granted, known_of, plan_of, replaced};
ghost use Rattle.ov_owner.specs.Changes.{HasChangeLimits, errand_of};
ghost use Rattle.ov_owner.specs.Helpers.{Seals};

use crate::OwnerFault;
use crate::change::Change;
use ov_base::limits::{MAX_FILE_BYTES, MAX_FRAME_BYTES, SET_WORDS};
use ov_base::{Key, Memory, Name, Octets};
use ov_base_layer::{seal_access, seal_cover};
use ov_graph::Cover;
use ov_record::Update;
use ov_surface::{base_encrypt, file_tag};
use ov_tokens::{Base, Layer, Master, access_key};
use ov_wire::{Answer, Known, Plan};
use std::alloc::Global;

/// An update that is sealed, and the epoch at which it is made.
#[derive(Drop)]
pub struct Sealed {
    pub epoch: u32,
    pub update: Update<SET_WORDS>,
}

/// The numbers that are told, or why the call ends.
pub fn known_of(answer: Answer) -> Result<Known, OwnerFault>
    ensures { result ≡ known_of answer }
{
    match answer {
        Answer::Known(known) => Ok(known),
        Answer::Refused { refusal } => Err(OwnerFault::Refused(refusal)),
        Answer::NoMemory => Err(OwnerFault::Memory),
        _ => Err(OwnerFault::BadReply { at: 0 }),
    }
}

/// The plan that is told, or why the call ends.
fn plan_of(answer: Answer) -> Result<Plan, OwnerFault>
    ensures { result ≡ plan_of answer }
{
    match answer {
        Answer::Plan(plan) => Ok(plan),
        Answer::Refused { refusal } => Err(OwnerFault::Refused(refusal)),
        Answer::NoMemory => Err(OwnerFault::Memory),
        _ => Err(OwnerFault::BadReply { at: 0 }),
    }
}

/// Bytes of a frame beside those of a file.
const AROUND: usize = (MAX_FRAME_BYTES - MAX_FILE_BYTES) as usize;

/// The base text of a file, in a list that has room for all that a frame has around it.
fn base_coated(alloc: Global, access: &Key, number: u32, bytes: &[u8]) -> Result<Octets, Memory>
    requires { length bytes.now ≤ MAX_FILE_BYTES }
    ensures { IfOk result (λ text. text ≡ base_text access.now.bytes number bytes.now) }
{
    let mut text = Vec::with_capacity(alloc, bytes.len() + AROUND)?;
    text.extend_from_slice(bytes)?;
    base_encrypt(access, number, 0, &mut text);
    Ok(Octets::from_vec(text))
}

/// A creation, by the plan of its list: the bytes in the coat of the base layer, the tag, and a
/// token for each edge of a new node.
fn seal_creation(
    alloc: Global,
    base: &Master,
    file: &Name,
    bytes: &[u8],
    plan: Plan,
) -> Result<Update<SET_WORDS>, Memory>
    requires bytes { length bytes.now ≤ MAX_FILE_BYTES }
    requires edges { length plan.from ≤ MAX_USERS }
    ensures update { IfOk result (λ update.
        sealed_update update ≡ created base.now.bytes file.now bytes.now plan) }
    ensures limits { IfOk result (λ update. IsWithinLimits second_form (sealed_update update)) }
{
    let Plan {
        file: number,
        list,
        node,
        fresh,
        from,
        ..
    } = plan;
    let access = access_key(&Base::key_of(base, node));
    let tokens = seal_cover(alloc, base, &Cover { node, fresh, from })?;
    Ok(Update::Create {
        name: file.copy(),
        list,
        tokens,
        tag: file_tag(&access, number, bytes),
        bytes: base_coated(alloc, &access, number, bytes)?,
    })
}

/// A replacement, by the plan of the list that its file has: sealed as a new file is, and without a
/// list of its own.
fn seal_replacement(
    alloc: Global,
    base: &Master,
    file: &Name,
    bytes: &[u8],
    plan: Plan,
) -> Result<Update<SET_WORDS>, Memory>
    requires bytes { length bytes.now ≤ MAX_FILE_BYTES }
    requires edges { length plan.from ≤ MAX_USERS }
    ensures update { IfOk result (λ update.
        sealed_update update ≡ replaced base.now.bytes file.now bytes.now plan) }
    ensures limits { IfOk result (λ update. IsWithinLimits second_form (sealed_update update)) }
{
    let Plan {
        file: number,
        node,
        fresh,
        from,
        ..
    } = plan;
    let access = access_key(&Base::key_of(base, node));
    let tokens = seal_cover(alloc, base, &Cover { node, fresh, from })?;
    Ok(Update::Replace {
        name: file.copy(),
        tokens,
        tag: file_tag(&access, number, bytes),
        bytes: base_coated(alloc, &access, number, bytes)?,
    })
}

/// A grant, by the numbers that were told, with an access token where one is wanted. It takes no
/// memory.
fn seal_grant(base: &Master, known: &Known) -> Update<SET_WORDS>
    ensures { sealed_update result ≡ granted base.now.bytes known.now }
{
    let token = if known.wants {
        Some(seal_access(base, known.base_root, known.node))
    } else {
        None
    };
    Update::Grant {
        user: known.user,
        file: known.file,
        token,
    }
}

/// The update, to be made at this epoch.
fn made_at(epoch: u32, update: Update<SET_WORDS>) -> Sealed
    ensures { result ≡ record { epoch = epoch; update = update } }
{
    Sealed { epoch, update }
}

/// What is sealed of an answer to a change's first request.
pub fn seal(
    alloc: Global,
    base: &Master,
    change: &Change<'_>,
    answer: Answer,
) -> Result<Sealed, OwnerFault>
    requires limits { HasChangeLimits change.now }
    requires answer { let e = errand_of base.now.bytes change.now in IsAnswer e.first answer }
    ensures sealed { Seals ((errand_of base.now.bytes change.now).sealed answer) result }
    ensures limits { IfOk result (λ made. IsWithinLimits second_form (sealed_update made.update)) }
{
    match change {
        Change::Enrol { user } => {
            let epoch = known_of(answer)?.epoch;
            Ok(made_at(epoch, Update::Enrol { name: user.copy() }))
        }
        Change::Create { file, bytes, .. } => {
            let plan = plan_of(answer)?;
            let epoch = plan.epoch;
            let update = seal_creation(alloc, base, file, bytes, plan)?;
            Ok(made_at(epoch, update))
        }
        Change::Grant { .. } => {
            let known = known_of(answer)?;
            Ok(made_at(known.epoch, seal_grant(base, &known)))
        }
        Change::Revoke { .. } => {
            let known = known_of(answer)?;
            let (user, file) = (known.user, known.file);
            Ok(made_at(known.epoch, Update::Revoke { user, file }))
        }
        Change::Remove { .. } => {
            let Known { epoch, file, .. } = known_of(answer)?;
            Ok(made_at(epoch, Update::Remove { file }))
        }
        Change::Replace { file, bytes } => {
            let plan = plan_of(answer)?;
            let epoch = plan.epoch;
            let update = seal_replacement(alloc, base, file, bytes, plan)?;
            Ok(made_at(epoch, update))
        }
    }
}
