//! Records that are replayed one after the other, as a store does with those of its journal.
ghost use Rattle.std.specs.Prelude.{◌≤◌, ◌<◌, ◌^◌, IfErr, IfOk, None};
ghost use Rattle.ov_blocks.specs.declared.extents.TheConstants.{MAX_BLOCKS};
ghost use Rattle.ov_journal.specs.Steps.{gate_behind};
ghost use Rattle.ov_images.specs.Damage.{HasBadRecord};
ghost use Rattle.ov_placed.specs.Faults.{NamesSpot};
ghost use Rattle.ov_placed.specs.Replaying.{IsReplayOf};

use ov_base::{Mode, Octets};
use ov_placed::{CataloguePlaces, PlacedCatalogue, ReplayFault};
use ov_record::Format;
use ov_tokens::Master;
use std::alloc::Global;

/// What the records of the second format with these bodies make of a store that began empty in this
/// mode and at this epoch, over a Blobs of so many whole blocks.
pub fn replay_all(
    alloc: Global,
    surface: &Master,
    mode: Mode,
    first: u32,
    bodies: &[Octets],
    blocks: u32,
) -> Result<CataloguePlaces, ReplayFault>
    requires { blocks ≤ MAX_BLOCKS }
    ensures made { IfOk result (IsReplayOf surface.now.bytes mode first blocks None bodies.now) }
    ensures fault { IfErr result (NamesSpot (λ spot. gate_behind None bodies.now < 2 ^ 64
        → HasBadRecord surface.now.bytes mode first blocks
        (record { bodies = bodies.now; step = None; bad = None }) spot)) }
{
    let mut replayed: CataloguePlaces = PlacedCatalogue::new(alloc, mode, first)?;
    let mut gate: u64 = 78;
    for body in bodies {
        let body = body.as_slice();
        replayed.replay(alloc, surface, Format::Second, body, gate, blocks)?;
        gate = gate.saturating_add(5).saturating_add(body.len() as u64);
    }
    Ok(replayed)
}
