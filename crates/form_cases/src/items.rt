//! What a script says.
ghost use Rattle.std.specs.Prelude.{◌<◌};

use crate::texts::{put_bytes, put_name, put_number, put_word};
use ov_base::{Name, Octets};
use ov_io::MemSource;
use ov_script::{Command, Next, Script};
use std::alloc::{AllocError, Global};
use std::test::Fail;

/// More items than any script here has.
const MOST: u32 = 1_000;

// Appends a word and names.
fn put_named(line: &mut String, word: &str, names: &[&Name]) -> Result<(), AllocError> {
    put_word(line, word)?;
    for name in names {
        put_name(line, *name)?;
    }
    Ok(())
}

// Appends a creation.
fn put_creation(
    line: &mut String,
    file: &Name,
    list: &[Name],
    bytes: &[u8],
) -> Result<(), AllocError> {
    put_named(line, "create", &[file])?;
    put_word(line, "for")?;
    for name in list {
        put_name(line, name)?;
    }
    put_word(line, "bytes")?;
    put_bytes(line, bytes)
}

// Appends a replacement.
fn put_replacement(line: &mut String, file: &Name, bytes: &[u8]) -> Result<(), AllocError> {
    put_named(line, "replace", &[file])?;
    put_word(line, "bytes")?;
    put_bytes(line, bytes)
}

// Appends what a command says, and a line's end.
fn put_command(line: &mut String, command: &Command) -> Result<(), AllocError> {
    match command {
        Command::Enrol { user } => put_named(line, "enrol", &[user])?,
        Command::Create { file, list, bytes } => {
            put_creation(line, file, list.as_slice(), bytes.as_slice())?
        }
        Command::Grant { user, file } => put_named(line, "grant", &[user, file])?,
        Command::Revoke { user, file } => put_named(line, "revoke", &[user, file])?,
        Command::Remove { file } => put_named(line, "remove", &[file])?,
        Command::Replace { file, bytes } => put_replacement(line, file, bytes.as_slice())?,
        Command::Read { user, file } => put_named(line, "read", &[user, file])?,
        Command::List { file } => put_named(line, "list", &[file])?,
        Command::Epoch => put_word(line, "epoch")?,
    }
    line.push_str("\n")
}

// A script that comes in pieces of so many bytes.
fn script_of(alloc: Global, text: &[u8], piece: usize) -> Result<Script<MemSource>, Fail>
    requires { 0 < piece }
{
    let source = MemSource::new(Octets::copy(alloc, text)?, piece, Octets::new(alloc));
    Ok(Script::new(alloc, source)?)
}

// What the script says: its commands, and how it ends.
fn told(alloc: Global, text: &[u8], piece: usize) -> Result<String, Fail>
    requires { 0 < piece }
{
    let mut script = script_of(alloc, text, piece)?;
    let mut lines = String::new(alloc);
    for _ in 0..MOST {
        match script.next() {
            Ok(Next::Command(command)) => put_command(&mut lines, &command)?,
            Ok(Next::End) => {
                put_word(&mut lines, "end")?;
                return Ok(lines);
            }
            Ok(Next::BadLine { line }) => {
                put_word(&mut lines, "bad line")?;
                put_number(&mut lines, line)?;
                return Ok(lines);
            }
            Ok(Next::Long) => return Err(Fail::from("a long script")),
            Err(_) => return Err(Fail::from("a fault")),
        }
    }
    Err(Fail::from("no end"))
}

/// Prints what a script says in pieces of each size.
pub fn tell_items(rt: &HostRuntime, text: &[u8]) -> Result<(), Fail> {
    let one = told(rt.alloc(), text, 1)?;
    if told(rt.alloc(), text, 7)? != one || told(rt.alloc(), text, 4096)? != one {
        return Err(Fail::from("a script says other things in other pieces"));
    }
    println!(rt; "items\n{one}")?;
    Ok(())
}

/// Prints what a long script says.
pub fn tell_long_items(rt: &HostRuntime, text: &[u8]) -> Result<(), Fail> {
    let lines = told(rt.alloc(), text, 4096)?;
    println!(rt; "items\n{lines}")?;
    Ok(())
}
