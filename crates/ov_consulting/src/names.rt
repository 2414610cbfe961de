//! The names of users and files, gathered from a catalogue.
ghost use Rattle.std.specs.Prelude.{◌≡◌, ◌+◌, ◌<◌, ◌≤◌, length, take, IfOk, OnOk};
ghost use Rattle.ov_base.specs.NameLists.{AreDistinct};
ghost use Rattle.ov_history.specs.Catalogue.{matrix_shown};
ghost use Rattle.ov_history.specs.Lists.{names_in};
ghost use Rattle.ov_listing.specs.Listings.{files_wanted};
ghost use Rattle.ov_listing.specs.declared.listing.Wanted.TheVariants.{Files as WithFiles};
ghost use Rattle.ov_consulting.specs.Gathering.{files_before};

use ov_base::{Memory, Name, Names, Users};
use ov_listing::Listed;
use ov_state::Catalogue;
use std::alloc::Global;

/// Appends the name of a user who is in the set, behind those of the users before.
fn put_member(state: &Catalogue, user: u32, set: &Users, names: &mut Names) -> Result<(), Memory>
    requires user { user < length state.now.catalogue.users }
    requires distinct { AreDistinct state.now.catalogue.users }
    requires before { names.old ≡ names_in set.now (take user state.now.catalogue.users) }
    ensures { let users = state.now.catalogue.users in
        OnOk result (names.new ≡ names_in set.now (take (user + 1) users)) }
{
    let Some(name) = state.user_at(user) else {
        unreachable!()
    };
    if set.contains(user) {
        names.insert(name.copy())?;
    }
    Ok(())
}

/// The names of the users in a set, by number.
pub fn names_of(alloc: Global, state: &Catalogue, set: &Users) -> Result<Names, Memory>
    requires { AreDistinct state.now.catalogue.users }
    ensures { IfOk result (λ names. names ≡ names_in set.now state.now.catalogue.users) }
{
    let mut names = Names::new(alloc);
    for user in 0..state.sizes().users {
        put_member(state, user, set, &mut names)?;
    }
    Ok(names)
}

/// Appends the name of a user, behind those of the users before.
fn put_user(state: &Catalogue, user: u32, users: &mut Vec<Name>) -> Result<(), Memory>
    requires user { user < length state.now.catalogue.users }
    requires before { users.old.items ≡ take user state.now.catalogue.users }
    ensures { OnOk result (users.new.items ≡ take (user + 1) state.now.catalogue.users) }
{
    let Some(name) = state.user_at(user) else {
        unreachable!()
    };
    users.push(name.copy())?;
    Ok(())
}

/// The names of the users, by number.
pub fn users_of(alloc: Global, state: &Catalogue) -> Result<Vec<Name>, Memory>
    ensures { IfOk result (λ users. users.items ≡ state.now.catalogue.users) }
{
    let mut users = Vec::new(alloc);
    for user in 0..state.sizes().users {
        put_user(state, user, &mut users)?;
    }
    Ok(users)
}

/// Appends a file with its list, where it isn't gone, behind the files before.
fn put_file(
    alloc: Global,
    state: &Catalogue,
    file: u32,
    files: &mut Vec<Listed>,
) -> Result<(), Memory>
    requires file { file < length state.now.catalogue.files }
    requires distinct { AreDistinct state.now.catalogue.users }
    requires before { files.old.items ≡ files_before file state.now.catalogue }
    ensures { OnOk result (files.new.items ≡ files_before (file + 1) state.now.catalogue) }
{
    let Some(name) = state.file_name(file) else {
        return Ok(());
    };
    // A name isn't empty, so the file is found by it.
    let _bytes = name.as_bytes();
    let Ok(list) = state.list(name) else {
        unreachable!()
    };
    let names = names_of(alloc, state, &list)?;
    files.push(Listed {
        file: name.copy(),
        names,
    })?;
    Ok(())
}

/// The files that aren't gone, by number, with the names of the users in their lists.
pub fn files_of(alloc: Global, state: &Catalogue) -> Result<Vec<Listed>, Memory>
    requires { AreDistinct state.now.catalogue.users }
    ensures { IfOk result (λ files. files.items
        ≡ files_wanted WithFiles (matrix_shown state.now.catalogue)) }
{
    let mut files = Vec::new(alloc);
    for file in 0..state.sizes().files {
        put_file(alloc, state, file, &mut files)?;
    }
    Ok(files)
}
