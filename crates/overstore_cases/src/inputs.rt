//! Lines that set the inputs of the next call.
use crate::case::Case;
use crate::scripts::{push_lines, push_rising, push_same, push_sets};
use crate::texts::{byte_of, number_of, push_text, small_of};
use std::alloc::AllocError;
use std::fs;
use std::test::Fail;

// The script to which the next line is added. The first line after a call begins a new one.
fn script<'a>(case: &'a mut Case) -> &'a mut Vec<u8> {
    if case.is_asked {
        case.inputs.script.truncate(0);
        case.is_asked = false;
    }
    &mut case.inputs.script
}

// Appends a line to the script.
fn push_line(case: &mut Case, text: &str) -> Result<(), AllocError> {
    let script = script(case);
    push_text(script, text.as_bytes())?;
    script.push(b'\n')?;
    Ok(())
}

// Appends one byte to the script again and again.
fn push_byte(case: &mut Case, rest: &str) -> Result<(), Fail> {
    let (count, byte) = rest.split_once(' ').ok_or("a count and a byte")?;
    push_same(script(case), number_of(count)?, byte_of(byte)?)?;
    Ok(())
}

// Appends a file to the script.
fn push_file(rt: &HostRuntime, case: &mut Case, name: &str) -> Result<(), Fail> {
    let bytes = fs::read(rt, name)?;
    script(case).extend_from_slice(&bytes)?;
    Ok(())
}

// Sets the key file.
fn set_keys(case: &mut Case, text: &str) -> Result<(), AllocError> {
    case.inputs.keys.truncate(0);
    push_text(&mut case.inputs.keys, text.as_bytes())
}

// Sets which call fails in the next run.
fn set_fails(case: &mut Case, rest: &str) -> Result<(), Fail> {
    let (party, call) = rest.split_once(' ').ok_or("a party and a call")?;
    match party {
        "keys" => case.fails.keys = number_of(call)?,
        "script" => case.fails.script = number_of(call)?,
        "lines" => case.fails.lines = number_of(call)?,
        "frames" => case.fails.frames = number_of(call)?,
        _ => {
            let (call, kept) = call.split_once(' ').ok_or("a call and a number of bytes")?;
            let call = case.disk.calls().saturating_add(number_of(call)?);
            case.disk.fail_part(call, number_of(kept)?)?;
        }
    }
    Ok(())
}

/// Does what a line says of the inputs, and answers whether it is such a line.
pub fn set_inputs(rt: &HostRuntime, case: &mut Case, word: &str, rest: &str) -> Result<bool, Fail> {
    match word {
        "|" => push_line(case, rest)?,
        ":" => push_text(script(case), rest.as_bytes())?,
        "@" => push_rising(script(case), number_of(rest)?)?,
        "*" => push_byte(case, rest)?,
        "%" => push_lines(rt.alloc(), script(case), rest)?,
        "sets" => push_sets(rt.alloc(), script(case))?,
        "script" => push_file(rt, case, rest)?,
        "pieces" => case.inputs.piece = number_of(rest)? as usize,
        "repeats" => case.inputs.repeats = small_of(rest)?,
        "keys" => set_keys(case, rest)?,
        "fails" => set_fails(case, rest)?,
        _ => return Ok(false),
    }
    Ok(true)
}
