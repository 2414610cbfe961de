//! What a stop leaves of a disk in memory.
ghost use Rattle.std.specs.Prelude.{◌≡◌, ltb, IfOk, OnOk};
ghost use Rattle.ov_disk.specs.Tape.{stop, stepped, stepped_all, torn_write, torn, before, number_of};

use crate::Tear;
use crate::areas::Areas;
use crate::change::Change;
use ov_base::Memory;
use std::alloc::Global;

// Whether it was a call before this one.
fn is_before(change: &Change, call: u64) -> bool
    ensures { result ≡ ltb (number_of change.now) call }
{
    match change {
        Change::Write { call: number, .. } => *number < call,
        Change::Sync { call: number } => *number < call,
    }
}

// Does to both what a change does, the write to the second as a tear leaves it.
fn step(
    alloc: Global,
    tear: Tear,
    change: &Change,
    now: &mut Areas,
    left: &mut Areas,
) -> Result<(), Memory>
    ensures { OnOk result (stop now.new.current left.new.current
        ≡ stepped tear change.now (stop now.old.current left.old.current)) }
{
    match change {
        Change::Write {
            area,
            at,
            bytes,
            ..
        } => {
            let bytes = bytes.as_slice();
            now.write(alloc, *area, *at, bytes)?;
            match tear {
                Tear::Old => Ok(()),
                Tear::New => left.write(alloc, *area, *at, bytes),
                Tear::Fill(byte) => {
                    let fill = vec![in alloc; byte; bytes.len()]?;
                    left.write(alloc, *area, *at, &fill)
                }
            }
        }
        Change::Sync { .. } => {
            *left = now.settled(alloc)?;
            Ok(())
        }
    }
}

// Does to both what the changes before this call do, each write to the second as a tear leaves it.
fn step_all(
    alloc: Global,
    tear: Tear,
    changes: &[Change],
    call: u64,
    now: &mut Areas,
    left: &mut Areas,
) -> Result<(), Memory>
    ensures { OnOk result (stop now.new.current left.new.current ≡ stepped_all tear
        (before call changes.now) (stop now.old.current left.old.current)) }
{
    'changes: for change in changes {
        if !is_before(change, call) {
            break;
        }
        step(alloc, tear, change, now, left)?;
    }
    Ok(())
}

/// What is left of these areas after the calls before this one, each write since the last sync
/// torn.
pub fn torn_areas(
    alloc: Global,
    areas: &Areas,
    changes: &[Change],
    call: u64,
    tear: Tear,
) -> Result<Areas, Memory>
    ensures { IfOk result (λ left.
        left.current ≡ torn tear areas.now.start (before call changes.now)) }
{
    let mut now = areas.started(alloc)?;
    let mut left = areas.started(alloc)?;
    step_all(alloc, tear, changes, call, &mut now, &mut left)?;
    Ok(left)
}
