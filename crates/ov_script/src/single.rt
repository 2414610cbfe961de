//! One command of the stated workload.
ghost use Rattle.std.specs.Prelude.{◌≡◌, ◌≤◌, ◌+◌, ◌<◌, IfOk};
ghost use Rattle.ov_script.specs.Workload.{command_at};
ghost use Rattle.ov_script.specs.declared.drawn.TheConstants.{WORKLOAD_USERS, MAX_WORKLOAD};

use crate::command::Command;
use crate::drawn::{MAX_WORKLOAD, WORKLOAD_USERS};
use crate::stated::Workload;
use ov_base::Memory;
use std::alloc::Global;

/// The command at a place of a workload. It goes through all before it: [`Workload`] gives one
/// after another.
pub fn workload(alloc: Global, number: u64, count: u32, place: u32) -> Result<Command, Memory>
    requires { (place < WORKLOAD_USERS + count) × (count ≤ MAX_WORKLOAD) }
    ensures { IfOk result (λ command. command ≡ command_at number place) }
{
    let mut workload = Workload::new(alloc, number, count);
    'places: for _before in 0..place {
        workload.advance();
    }
    match workload.next()? {
        Some(command) => Ok(command),
        None => unreachable!(),
    }
}
