//! The updates of an open store, read again.
ghost use Rattle.std.specs.Prelude.{◌≡◌, IfOk, IfSome, IsErrOf};
ghost use Rattle.ov_disk.specs.declared.area.Area.TheVariants.{Book};
ghost use Rattle.ov_replaying.specs.Reading.{FindsUpdate, MakesUpdate, StaysAsItWas};
ghost use Rattle.ov_state.specs.Plans.{IsFitting, plain_brief};
ghost use Rattle.ov_store.specs.declared.fault.BeginFault.TheVariants.{Damaged, Disk as DiskFailed};

use ov_disk::{Area, Disk};
use ov_record::Brief;
use ov_state::{Catalogue, PrepareFault, WIDTH};
use ov_store::{BeginFault, BriefFault, Store};
use ov_tokens::Master;
use std::alloc::Global;

/// That the record with this gate isn't the update that was replayed when the store was opened.
pub fn damaged(gate: u64) -> BeginFault
    ensures { result ≡ Damaged Book gate }
{
    BeginFault::Damaged {
        area: Area::Book,
        offset: gate,
    }
}

/// Update number `i` of the store, or none where there are no more. A record that changed is named
/// by the place of its gate.
pub fn read_update<D: Disk>(
    alloc: Global,
    store: &mut Store<D>,
    i: u64,
) -> Result<Option<Brief<WIDTH>>, BeginFault>
    ensures update { FindsUpdate D.tells store.old i result }
    ensures fits { IfOk result (λ found. IfSome found (λ b. IsFitting (plain_brief b))) }
    ensures stays { StaysAsItWas D.tells store.old store.new (IsErrOf result DiskFailed) }
{
    match store.brief(alloc, i) {
        Ok(found) => Ok(found),
        Err(BriefFault::Disk) => Err(BeginFault::Disk),
        Err(BriefFault::Changed { offset }) => Err(damaged(offset)),
        Err(BriefFault::Memory) => Err(BeginFault::Memory),
    }
}

/// Makes an update in the catalogue, whose record has its gate at this place.
pub fn make(
    alloc: Global,
    surface: &Master,
    state: &mut Catalogue,
    update: Brief<WIDTH>,
    gate: u64,
) -> Result<(), BeginFault>
    requires { IsFitting (plain_brief update) }
    ensures { MakesUpdate surface.now.bytes state.old.catalogue (plain_brief update)
        state.new.catalogue result }
{
    match state.prepare(alloc, surface, update) {
        Ok(change) => {
            state.commit(change);
            Ok(())
        }
        Err(PrepareFault::Memory) => Err(BeginFault::Memory),
        Err(_) => Err(damaged(gate)),
    }
}
