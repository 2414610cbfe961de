//! The line and the status for a store that isn't begun.
ghost use Rattle.std.specs.Prelude.{◌≡◌, ◌≢◌, ◌∷◌, ◌++◌, [], codes, IfOk, OnOk};
ghost use Rattle.std.specs.Fmt.{decimal};
ghost use Rattle.hex.specs.Hex.{encode_lower};
ghost use Rattle.ov_report.specs.Faults.{HasValues, fault_line, fault_status, two_values};
ghost use Rattle.ov_base.specs.Modes.{mode_word};
ghost use Rattle.ov_report.specs.Words.{area_word};

use ov_base::{Memory, Mode};
use ov_disk::Area;
use ov_store::BeginFault;
use std::alloc::Global;

// Appends the bytes in hexadecimal, behind a space.
fn push_value(alloc: Global, bytes: &[u8; 32], line: &mut Vec<u8>) -> Result<(), Memory>
    ensures { OnOk result (line.new.items ≡ line.old.items ++ 32 ∷ encode_lower bytes.now) }
{
    let text = hex::encode(alloc, *bytes)?;
    line.push(b' ')?;
    line.extend_from_slice(text.as_bytes())?;
    Ok(())
}

/// Appends two values in hexadecimal, each behind a space, and an LF.
pub fn push_values(
    alloc: Global,
    stored: &[u8; 32],
    other: &[u8; 32],
    line: &mut Vec<u8>,
) -> Result<(), Memory>
    ensures { OnOk result (line.new.items ≡ line.old.items ++ two_values stored.now other.now) }
{
    push_value(alloc, stored, line)?;
    push_value(alloc, other, line)?;
    Ok(line.push(b'\n')?)
}

// The line on a key that differs.
fn line_on_key(
    alloc: Global,
    head: &[u8],
    stored: &[u8; 32],
    given: &[u8; 32],
) -> Result<Vec<u8>, Memory>
    ensures { IfOk result (λ line. line.items ≡ head.now ++ two_values stored.now given.now) }
{
    let mut line = head.to_vec(alloc)?;
    push_values(alloc, stored, given, &mut line)?;
    Ok(line)
}

// The line on what can't be, at its place.
fn line_on_damage(alloc: Global, area: Area, offset: u64) -> Result<Vec<u8>, Memory>
    ensures { IfOk result (λ line. line.items
        ≡ codes "error damaged " ++ area_word area ++ 32 ∷ decimal offset ++ 10 ∷ []) }
{
    let area = match area {
        Area::Book => "book",
        Area::Blobs => "blobs",
    };
    let text = format!(in alloc; "error damaged {area} {offset}\n")?;
    Ok(text.as_bytes().to_vec(alloc)?)
}

/// The word for a mode.
pub fn word_of(mode: Mode) -> &'static str
    ensures { result.now ≡ mode_word mode }
{
    match mode {
        Mode::Full => "full",
        Mode::Delta => "delta",
    }
}

// The line on a mode that differs.
fn line_on_mode(alloc: Global, stored: Mode, given: Mode) -> Result<Vec<u8>, Memory>
    ensures { IfOk result (λ line. line.items
        ≡ codes "error mode " ++ mode_word stored ++ 32 ∷ mode_word given ++ 10 ∷ []) }
{
    let stored = word_of(stored);
    let given = word_of(given);
    let text = format!(in alloc; "error mode {stored} {given}\n")?;
    Ok(text.as_bytes().to_vec(alloc)?)
}

/// The line on a store that isn't begun, for this reason.
pub fn line_on_fault(alloc: Global, fault: BeginFault) -> Result<Vec<u8>, Memory>
    ensures { IfOk result (λ line. line.items ≡ fault_line fault) }
{
    match fault {
        BeginFault::Disk => Ok(b"error disk\n".to_vec(alloc)?),
        BeginFault::NotAStore => Ok(b"error notastore\n".to_vec(alloc)?),
        BeginFault::Damaged { area, offset } => line_on_damage(alloc, area, offset),
        BeginFault::BaseDiffers { stored, given } => {
            line_on_key(alloc, b"error key base", &stored, &given)
        }
        BeginFault::SurfaceDiffers { stored, given } => {
            line_on_key(alloc, b"error key surface", &stored, &given)
        }
        BeginFault::ModeDiffers { stored, given } => line_on_mode(alloc, stored, given),
        BeginFault::Memory => Ok(b"error memory\n".to_vec(alloc)?),
    }
}

/// The status of a program whose store isn't begun, for this reason.
pub fn status_of(fault: BeginFault) -> u8
    ensures code { result ≡ fault_status fault }
    ensures no_write { result ≢ 6 }
{
    match fault {
        BeginFault::Disk => 4,
        BeginFault::NotAStore | BeginFault::Damaged { area: _, offset: _ } => 8,
        BeginFault::BaseDiffers {
            stored: _,
            given: _,
        }
        | BeginFault::SurfaceDiffers {
            stored: _,
            given: _,
        }
        | BeginFault::ModeDiffers {
            stored: _,
            given: _,
        } => 9,
        BeginFault::Memory => 7,
    }
}

/// Does nothing. Its contract is what holds of each fault: two values that it names are of one
/// length.
pub fn values_are_known(fault: BeginFault)
    ensures { HasValues fault }
{
    match fault {
        BeginFault::BaseDiffers { stored, given } => {
            let _same = stored.len() == given.len();
        }
        BeginFault::SurfaceDiffers { stored, given } => {
            let _same = stored.len() == given.len();
        }
        _ => {}
    }
}
