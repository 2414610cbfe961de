//! The lines of users and files, as a listing of a server has them.
ghost use Rattle.std.specs.Prelude.{◌≡◌, ◌++◌, OnOk};
ghost use Rattle.ov_listing.specs.Texts.{file_line, files_of_text, files_text};
ghost use Rattle.ov_listing.specs.Texts.{line_if_listed, name_line, users_text};

use ov_base::{Memory, Name};
use ov_listing::Listed;
use ov_script::{Reply, line};

/// Appends a name and LF.
fn put_name(name: &Name, out: &mut Vec<u8>) -> Result<(), Memory>
    ensures { OnOk result (out.new.items ≡ out.old.items ++ name_line name.now) }
{
    out.extend_from_slice(name.as_bytes())?;
    out.push(b'\n')?;
    Ok(())
}

/// Appends the names of the users, a line each.
pub fn put_users(users: &[Name], out: &mut Vec<u8>) -> Result<(), Memory>
    ensures { OnOk result (out.new.items ≡ out.old.items ++ users_text users.now) }
{
    for user in users {
        put_name(user, out)?;
    }
    Ok(())
}

/// Appends the line on a file and its list.
fn put_file(listed: Listed, out: &mut Vec<u8>) -> Result<(), Memory>
    ensures { OnOk result (out.new.items ≡ out.old.items ++ file_line listed) }
{
    let reply = Reply::List {
        file: listed.file,
        names: listed.names,
    };
    line(&reply, out)
}

/// Appends the files with their lists, a line `list FILE NAMES` each.
pub fn put_files(files: Vec<Listed>, out: &mut Vec<u8>) -> Result<(), Memory>
    ensures { OnOk result (out.new.items ≡ out.old.items ++ files_text files.items) }
{
    for listed in files {
        put_file(listed, out)?;
    }
    Ok(())
}

/// Appends the name of the file, where the user is in its list.
fn put_if_listed(user: &Name, listed: &Listed, out: &mut Vec<u8>) -> Result<(), Memory>
    ensures { OnOk result (out.new.items ≡ out.old.items ++ line_if_listed user.now listed.now) }
{
    if listed.names.contains(user) {
        put_name(&listed.file, out)?;
    }
    Ok(())
}

/// Appends the names of the files that list the user, a line each.
pub fn put_files_of(user: &Name, files: &[Listed], out: &mut Vec<u8>) -> Result<(), Memory>
    ensures { OnOk result (out.new.items ≡ out.old.items ++ files_of_text user.now files.now) }
{
    for listed in files {
        put_if_listed(user, listed, out)?;
    }
    Ok(())
}
