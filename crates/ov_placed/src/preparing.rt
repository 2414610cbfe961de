//! Updates that are prepared and not yet made.
ghost use Rattle.std.specs.Prelude.{◌≡◌, ◌*◌, true, false, IfErr, IfOk};
ghost use Rattle.ov_history.specs.Catalogue.{file_names_shown};
ghost use Rattle.ov_history.specs.Sent.{numbered};
ghost use Rattle.ov_record.specs.Briefs.{brief, plain_brief};
ghost use Rattle.ov_record.specs.Forms.{second_form};
ghost use Rattle.ov_record.specs.Stored.{IsBriefWithinLimits};
ghost use Rattle.ov_record.specs.Updates.{sealed_update};
ghost use Rattle.ov_state.specs.Changes.{HasRoomFor};
ghost use Rattle.ov_state.specs.Plans.{IsFaultOf, IsFitting, IsWithinLimits};
ghost use Rattle.ov_placed.specs.Contents.{HoldsTheSame};
ghost use Rattle.ov_placed.specs.Updating.{IsPrepared, IsSpelled};

use crate::catalogue::CataloguePlaces;
use crate::removing::removed_by;
use ov_base::limits::MAX_USERS;
use ov_base::{Memory, Octets};
use ov_record::{Brief, Update};
use ov_state::{Change, PrepareFault, WIDTH};
use ov_tokens::Master;
use ov_updating::spell_update;
use std::alloc::Global;

/// All of an update that its catalogue and its record need: the change of the catalogue, the spelling
/// with which its record begins, the bytes of a new file, and the number of a file that is removed or
/// replaced.
#[derive(Drop)]
pub struct Prepared<const W: usize> {
    pub(crate) change: Change<W>,
    pub(crate) front: Octets,
    pub(crate) text: Option<Octets>,
    pub(crate) removed: Option<u32>,
}

// Whether the update has as few tokens as a spelling may have. An update with more isn't one that
// layers want.
fn has_few_tokens(update: &Brief<WIDTH>) -> bool
    requires { IsFitting (plain_brief update.now) }
    ensures few { result ≡ true → IsBriefWithinLimits second_form (plain_brief update.now) }
    ensures many { result ≡ false → IsWithinLimits (plain_brief update.now) → ⊥ }
{
    match update {
        Brief::Create { tokens, .. } => tokens.as_slice().len() <= MAX_USERS as usize,
        Brief::Replace { tokens, .. } => tokens.as_slice().len() <= MAX_USERS as usize,
        _ => true,
    }
}

// The spelling of an update, unless it passes the limits of one, and the update.
fn spell(alloc: Global, update: Brief<WIDTH>) -> Result<(Brief<WIDTH>, Option<Octets>), Memory>
    requires { IsFitting (plain_brief update) }
    ensures same { IfOk result (λ x. plain_brief x.0 ≡ plain_brief update) }
    ensures spelled { IfOk result (λ x. IsSpelled (plain_brief update) x.1) }
{
    if !has_few_tokens(&update) {
        return Ok((update, None));
    }
    let (update, front) = spell_update(alloc, update)?;
    Ok((update, Some(Octets::from_vec(front))))
}

impl CataloguePlaces {
    /// Takes memory for the change that an update makes under the surface master, for
    /// [`CataloguePlaces::update`]. Whatever it answers, all is as it was but for the room of the
    /// catalogue.
    pub fn prepare(
        &mut self,
        alloc: Global,
        surface: &Master,
        update: Update<WIDTH>,
    ) -> Result<Prepared<WIDTH>, PrepareFault>
        requires { IsFitting (brief (sealed_update update)) }
        ensures same { HoldsTheSame self.old self.new }
        ensures prepared { let c = self.old.catalogue in
            IfOk result (IsPrepared (64 * WIDTH) surface.now.bytes c
            (numbered (file_names_shown c) (sealed_update update))) }
        ensures room { IfOk result (λ prepared. HasRoomFor self.new.room prepared.change) }
        ensures fault { IfErr result
            (IsFaultOf WIDTH self.old.catalogue (brief (sealed_update update))) }
    {
        let (brief, text) = Brief::of(update);
        let (brief, front) = spell(alloc, brief)?;
        let removed = removed_by(&self.catalogue, &brief);
        let change = self.catalogue.prepare(alloc, surface, brief)?;
        match front {
            Some(front) => Ok(Prepared {
                change,
                front,
                text,
                removed,
            }),
            None => unreachable!(),
        }
    }
}
