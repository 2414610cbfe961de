//! The answers to the questions that a server is asked too.
ghost use Rattle.std.specs.Prelude.{◌≡◌, ◌<◌, IfOk};
ghost use Rattle.ov_base.specs.NameLists.{AreDistinct};
ghost use Rattle.ov_base.specs.declared.limits.TheConstants.{MAX_LAYER_NODES};
ghost use Rattle.ov_client.specs.KeyLines.{key_line};
ghost use Rattle.ov_history.specs.Catalogue.{matrix_shown, outline};
ghost use Rattle.ov_history.specs.Lists.{names_in};
ghost use Rattle.ov_listing.specs.Listings.{files_wanted};
ghost use Rattle.ov_listing.specs.Texts.{files_of_text, files_text, users_text};
ghost use Rattle.ov_listing.specs.declared.listing.Wanted.TheVariants.{Files as WithFiles};
ghost use Rattle.ov_script.specs.Lines.{reply_line};
ghost use Rattle.ov_script.specs.declared.reply.Reply.TheVariants.{List as ListReply};
ghost use Rattle.ov_consulting.specs.Answers.{files_of_answer, key_answer, list_answer};
ghost use Rattle.ov_consulting.specs.Saying.{Says};

use crate::lines::{put_files, put_files_of, put_users};
use crate::names::{files_of, names_of, users_of};
use crate::stop::BookStop;
use ov_base::{Memory, Name, Octets, Refusal, Users};
use ov_book::{Book, Roots};
use ov_client::Client;
use ov_disk::Disk;
use ov_script::{Reply, line};
use ov_state::Catalogue;
use std::alloc::Global;

/// The line of a reply.
pub fn line_of(alloc: Global, reply: &Reply) -> Result<Octets, Memory>
    ensures { IfOk result (λ bytes. bytes ≡ reply_line reply.now) }
{
    let mut bytes = Vec::new(alloc);
    line(reply, &mut bytes)?;
    Ok(Octets::from_vec(bytes))
}

/// The line of a user's keys.
fn line_of_client(alloc: Global, client: &Client) -> Result<Octets, Memory>
    ensures { IfOk result (λ line. line ≡ key_line client.now) }
{
    let mut bytes = Vec::new(alloc);
    client.line(&mut bytes)?;
    Ok(Octets::from_vec(bytes))
}

/// The reader of a user whose roots are these.
fn client_of(user: &Name, roots: &Roots) -> Client
    requires base { roots.now.base_root < MAX_LAYER_NODES }
    requires surface { roots.now.surface_root < MAX_LAYER_NODES }
    ensures { result ≡ record {
      name = user.now;
      base_root = roots.now.base_root;
      base = roots.now.base.bytes;
      surface_root = roots.now.surface_root;
      surface = roots.now.surface.bytes;
    } }
{
    Client::new(
        user.copy(),
        roots.base_root,
        roots.base,
        roots.surface_root,
        roots.surface,
    )
}

/// The key line of a user.
pub fn tell_key<D: Disk>(alloc: Global, book: &Book<D>, user: &Name) -> Result<Octets, BookStop>
    ensures { let c = book.now.settled in
        Says (key_answer book.now.masters (matrix_shown c) (outline c) user.now) result }
{
    // The roots of a user are nodes, of which a layer has no more than a key line takes.
    book.settled().known();
    match book.roots(user) {
        Ok(roots) => match line_of_client(alloc, &client_of(user, &roots)) {
            Ok(line) => Ok(line),
            Err(Memory) => Err(BookStop::Memory),
        },
        Err(why) => Err(BookStop::Refused(why)),
    }
}

/// The line on the list of a file.
fn line_on_list(
    alloc: Global,
    state: &Catalogue,
    file: &Name,
    set: &Users,
) -> Result<Octets, Memory>
    requires { AreDistinct state.now.catalogue.users }
    ensures { IfOk result (λ bytes. bytes
        ≡ reply_line (ListReply file.now (names_in set.now state.now.catalogue.users))) }
{
    let reply = Reply::List {
        file: file.copy(),
        names: names_of(alloc, state, set)?,
    };
    line_of(alloc, &reply)
}

/// The list of a file.
pub fn tell_list(alloc: Global, state: &Catalogue, file: &Name) -> Result<Octets, BookStop>
    requires { AreDistinct state.now.catalogue.users }
    ensures { Says (list_answer (matrix_shown state.now.catalogue) file.now) result }
{
    match state.list(file) {
        Ok(set) => match line_on_list(alloc, state, file, &set) {
            Ok(line) => Ok(line),
            Err(Memory) => Err(BookStop::Memory),
        },
        Err(why) => Err(BookStop::Refused(why)),
    }
}

/// The users.
pub fn tell_users(alloc: Global, state: &Catalogue) -> Result<Octets, Memory>
    ensures { IfOk result (λ bytes. bytes ≡ users_text state.now.catalogue.users) }
{
    let users = users_of(alloc, state)?;
    let mut bytes = Vec::new(alloc);
    put_users(&users, &mut bytes)?;
    Ok(Octets::from_vec(bytes))
}

/// The files with their lists.
pub fn tell_files(alloc: Global, state: &Catalogue) -> Result<Octets, Memory>
    requires { AreDistinct state.now.catalogue.users }
    ensures { IfOk result (λ bytes. bytes
        ≡ files_text (files_wanted WithFiles (matrix_shown state.now.catalogue))) }
{
    let files = files_of(alloc, state)?;
    let mut bytes = Vec::new(alloc);
    put_files(files, &mut bytes)?;
    Ok(Octets::from_vec(bytes))
}

/// The names of the files that list this name.
fn files_with(alloc: Global, state: &Catalogue, user: &Name) -> Result<Octets, Memory>
    requires { AreDistinct state.now.catalogue.users }
    ensures { IfOk result (λ bytes. bytes
        ≡ files_of_text user.now (files_wanted WithFiles (matrix_shown state.now.catalogue))) }
{
    let files = files_of(alloc, state)?;
    let mut bytes = Vec::new(alloc);
    put_files_of(user, &files, &mut bytes)?;
    Ok(Octets::from_vec(bytes))
}

/// The files that list a user.
pub fn tell_files_of(alloc: Global, state: &Catalogue, user: &Name) -> Result<Octets, BookStop>
    requires { AreDistinct state.now.catalogue.users }
    ensures { Says (files_of_answer (matrix_shown state.now.catalogue) user.now) result }
{
    if state.user_number(user).is_none() {
        return Err(BookStop::Refused(Refusal::NoUser));
    }
    match files_with(alloc, state, user) {
        Ok(bytes) => Ok(bytes),
        Err(Memory) => Err(BookStop::Memory),
    }
}
