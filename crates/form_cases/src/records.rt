//! Updates in either form: what is read and written again, or the place of the first wrong byte.
ghost use Rattle.std.specs.Prelude.{◌≤◌, ◌<◌, ◌^◌};
ghost use Rattle.ov_base.specs.declared.limits.TheConstants.{MAX_SET_WORDS};
ghost use Rattle.ov_record.specs.Forms.{form_of, longest_spelling};

use crate::texts::put_number;
use crate::updates::put_update;
use ov_base::Octets;
use ov_record::{Form, RecordFault, into_spelling, read_whole};
use std::alloc::Global;
use std::test::Fail;

/// Appends the place of the first wrong byte.
pub fn put_fault(line: &mut String, fault: RecordFault) -> Result<(), Fail> {
    match fault {
        RecordFault::BadRecord { at } => {
            line.push_str(" wrong at")?;
            put_number(line, u64::from(at))?;
            Ok(())
        }
        RecordFault::Memory => Err(Fail::from("no memory")),
    }
}

/// Makes sure that what was read is written again as it was.
pub fn expect_same(bytes: &[u8], written: &[u8]) -> Result<(), Fail> {
    if bytes == written {
        return Ok(());
    }
    Err(Fail::from("a record is written otherwise"))
}

// The update that the bytes spell, or the place of the first wrong one.
fn told<const W: usize>(alloc: Global, form: Form<W>, bytes: &[u8]) -> Result<String, Fail>
    requires width { (1 ≤ W) × (W ≤ MAX_SET_WORDS) }
    requires places { longest_spelling (form_of form) < 2 ^ 32 }
{
    let mut line = String::new(alloc);
    match read_whole(alloc, form, Octets::copy(alloc, bytes)?) {
        Ok(update) => {
            put_update(&mut line, &update)?;
            let spelling = into_spelling(alloc, form, update)?;
            expect_same(bytes, spelling.as_slice())?;
        }
        Err(fault) => put_fault(&mut line, fault)?,
    }
    Ok(line)
}

/// Prints the update that the bytes spell in the form 1 or 2.
pub fn tell_record(rt: &HostRuntime, form: &str, bytes: &[u8]) -> Result<(), Fail> {
    let line = match form {
        "1" => told(rt.alloc(), Form::FIRST, bytes)?,
        _ => told(rt.alloc(), Form::SECOND, bytes)?,
    };
    println!(rt; "record {form}:{line}")?;
    Ok(())
}
