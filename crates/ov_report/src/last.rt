//! The last line of a program, and its status.
ghost use Rattle.std.specs.Prelude.{◌≢◌};
ghost use Rattle.ov_report.specs.Ends.{EndsIn, EndsOr, IsPutTo};
ghost use Rattle.ov_report.specs.Faults.{fault_line, fault_status, memory_line};

use crate::fault_lines::{line_on_fault, status_of};
use ov_io::Sink;
use ov_store::BeginFault;
use std::alloc::Global;

/// The status of a program whose line couldn't be put.
pub const WRITE_FAULT: u8 = 6;

/// Puts the last line, and gives this status where that succeeds.
pub fn put_last<O: Sink>(out: &mut O, bytes: &[u8], code: u8) -> u8
    requires { code ≢ WRITE_FAULT }
    ensures ends { EndsIn bytes.now code (O.tells.written out.old) (O.tells.written out.new)
        result }
    ensures put { IsPutTo O.tells out.old out.new result }
{
    match out.put(bytes) {
        Ok(()) => code,
        Err(_) => WRITE_FAULT,
    }
}

/// Puts the line that says that memory was refused.
pub fn put_memory<O: Sink>(out: &mut O) -> u8
    ensures ends { EndsIn memory_line 7 (O.tells.written out.old) (O.tells.written out.new) result }
    ensures put { IsPutTo O.tells out.old out.new result }
{
    put_last(out, b"error memory\n", 7)
}

/// Puts the line on a store that isn't begun, or the one that says that memory was refused for it.
pub fn put_fault<O: Sink>(alloc: Global, out: &mut O, fault: BeginFault) -> u8
    ensures ends { EndsOr (fault_line fault) (fault_status fault)
        (O.tells.written out.old) (O.tells.written out.new) result }
    ensures put { IsPutTo O.tells out.old out.new result }
{
    match line_on_fault(alloc, fault) {
        Ok(bytes) => put_last(out, &bytes, status_of(fault)),
        Err(_) => put_memory(out),
    }
}
