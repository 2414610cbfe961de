//! The lines of a listing.
ghost use Rattle.std.specs.Prelude.{◌≡◌, ◌++◌, OnOk};
ghost use Rattle.ov_listing.specs.Texts.{epoch_text, file_line, files_of_text, files_text};
ghost use Rattle.ov_listing.specs.Texts.{line_if_listed, mode_line, name_line, users_text};

use crate::Listed;
use ov_base::{Memory, Mode, Name};
use ov_script::{Reply, line};

/// The line of a mode.
fn line_of_mode(mode: Mode) -> &'static str
    ensures { result.now ≡ mode_line mode }
{
    match mode {
        Mode::Full => "mode full\n",
        Mode::Delta => "mode delta\n",
    }
}

/// Appends the mode and the epoch of a store, a line each.
pub fn put_epoch(mode: Mode, epoch: u32, out: &mut Vec<u8>) -> Result<(), Memory>
    ensures { OnOk result (out.new.items ≡ out.old.items ++ epoch_text mode epoch) }
{
    out.extend_from_slice(line_of_mode(mode).as_bytes())?;
    line(&Reply::Epoch(epoch), out)
}

/// Appends a name and LF.
fn put_name(name: &Name, out: &mut Vec<u8>) -> Result<(), Memory>
    ensures { OnOk result (out.new.items ≡ out.old.items ++ name_line name.now) }
{
    out.extend_from_slice(name.as_bytes())?;
    out.push(b'\n')?;
    Ok(())
}

/// Appends the names of the users, a line each.
pub fn put_users(users: &[Name], out: &mut Vec<u8>) -> Result<(), Memory>
    ensures { OnOk result (out.new.items ≡ out.old.items ++ users_text users.now) }
{
    for user in users {
        put_name(user, out)?;
    }
    Ok(())
}

/// Appends the line on a file and its list.
fn put_file(listed: Listed, out: &mut Vec<u8>) -> Result<(), Memory>
    ensures { OnOk result (out.new.items ≡ out.old.items ++ file_line listed) }
{
    let reply = Reply::List {
        file: listed.file,
        names: listed.names,
    };
    line(&reply, out)
}

/// Appends the files with their lists, a line `list FILE NAMES` each.
pub fn put_files(files: Vec<Listed>, out: &mut Vec<u8>) -> Result<(), Memory>
    ensures { OnOk result (out.new.items ≡ out.old.items ++ files_text files.items) }
{
    for listed in files {
        put_file(listed, out)?;
    }
    Ok(())
}

/// Appends the name of the file, where the user is in its list.
fn put_if_listed(user: &Name, listed: &Listed, out: &mut Vec<u8>) -> Result<(), Memory>
    ensures { OnOk result (out.new.items ≡ out.old.items ++ line_if_listed user.now listed.now) }
{
    if listed.names.contains(user) {
        put_name(&listed.file, out)?;
    }
    Ok(())
}

/// Appends the names of the files that list the user, a line each.
pub fn put_files_of(user: &Name, files: &[Listed], out: &mut Vec<u8>) -> Result<(), Memory>
    ensures { OnOk result (out.new.items ≡ out.old.items ++ files_of_text user.now files.now) }
{
    for listed in files {
        put_if_listed(user, listed, out)?;
    }
    Ok(())
}
