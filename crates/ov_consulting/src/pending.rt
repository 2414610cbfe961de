//! The line on what is pending.
ghost use Rattle.std.specs.Prelude.{◌≡◌, ◌++◌, ◌∷◌, [], IfOk, OnOk, Option, Some, codes, option_map};
ghost use Rattle.std.specs.Fmt.{decimal};
ghost use Rattle.ov_base.specs.NameLists.{AreDistinct};
ghost use Rattle.ov_history.specs.Catalogue.{matrix_shown};
ghost use Rattle.ov_history.specs.Lists.{names_in};
ghost use Rattle.ov_record.specs.Briefs.{Brief as SpelledBrief, plain_brief};
ghost use Rattle.ov_record.specs.Forms.{second_form};
ghost use Rattle.ov_record.specs.Stored.{HasBriefForm, brief_spelling};
ghost use Rattle.ov_script.specs.WrittenLists.{list_text, with_commas};
ghost use Rattle.ov_consulting.specs.Pending.{file_name, pending_line, update_words, user_name};
ghost use Rattle.ov_consulting.specs.Saying.{IsSpelled};

use crate::names::names_of;
use ov_base::limits::SET_WORDS;
use ov_base::{Memory, Name, Octets, Users};
use ov_record::{Brief, Form, RecordFault, read_brief};
use ov_state::Catalogue;
use std::alloc::Global;

/// Appends the names, each behind a comma.
fn put_with_commas(names: &[Name], out: &mut Vec<u8>) -> Result<(), Memory>
    ensures { OnOk result (out.new.items ≡ out.old.items ++ with_commas names.now) }
{
    for name in names {
        out.push(b',')?;
        out.extend_from_slice(name.as_bytes())?;
    }
    Ok(())
}

/// Appends the names with commas between them, or `-` where there are none.
fn put_list(names: &[Name], out: &mut Vec<u8>) -> Result<(), Memory>
    ensures { OnOk result (out.new.items ≡ out.old.items ++ list_text names.now) }
{
    match names {
        [] => Ok(out.push(b'-')?),
        [first, others @ ..] => {
            out.extend_from_slice(first.as_bytes())?;
            put_with_commas(others, out)
        }
    }
}

/// Appends the name of the user of this number.
fn put_user(state: &Catalogue, user: u32, out: &mut Vec<u8>) -> Result<(), Memory>
    ensures { OnOk result (out.new.items
        ≡ out.old.items ++ user_name (matrix_shown state.now.catalogue) user) }
{
    match state.user_at(user) {
        Some(name) => Ok(out.extend_from_slice(name.as_bytes())?),
        None => Ok(()),
    }
}

/// Appends the name of the file of this number.
fn put_file(state: &Catalogue, file: u32, out: &mut Vec<u8>) -> Result<(), Memory>
    ensures { OnOk result (out.new.items
        ≡ out.old.items ++ file_name (matrix_shown state.now.catalogue) file) }
{
    match state.file_name(file) {
        Some(name) => Ok(out.extend_from_slice(name.as_bytes())?),
        None => Ok(()),
    }
}

/// Appends the names of a user and a file, with a space between them.
fn put_both(state: &Catalogue, user: u32, file: u32, out: &mut Vec<u8>) -> Result<(), Memory>
    ensures { let m = matrix_shown state.now.catalogue in OnOk result (out.new.items
        ≡ out.old.items ++ user_name m user ++ 32 ∷ file_name m file) }
{
    put_user(state, user, out)?;
    out.push(b' ')?;
    put_file(state, file, out)
}

/// Appends a file's name and its list, with a space between them.
fn put_creation(
    alloc: Global,
    state: &Catalogue,
    file: &Name,
    list: &Users,
    out: &mut Vec<u8>,
) -> Result<(), Memory>
    requires { AreDistinct state.now.catalogue.users }
    ensures { OnOk result (out.new.items ≡ out.old.items
        ++ file.now ++ 32 ∷ list_text (names_in list.now state.now.catalogue.users)) }
{
    let names = names_of(alloc, state, list)?;
    out.extend_from_slice(file.as_bytes())?;
    out.push(b' ')?;
    put_list(names.as_slice(), out)
}

/// Appends the words of an update.
fn put_update(
    alloc: Global,
    state: &Catalogue,
    update: &Brief<SET_WORDS>,
    out: &mut Vec<u8>,
) -> Result<(), Memory>
    requires { AreDistinct state.now.catalogue.users }
    ensures { OnOk result (out.new.items ≡ out.old.items
        ++ update_words (matrix_shown state.now.catalogue) (plain_brief update.now)) }
{
    match update {
        Brief::Enrol { name } => {
            out.extend_from_slice(b"enrol ")?;
            Ok(out.extend_from_slice(name.as_bytes())?)
        }
        Brief::Create { name, list, .. } => {
            out.extend_from_slice(b"create ")?;
            put_creation(alloc, state, name, list, out)
        }
        Brief::Grant { user, file, .. } => {
            out.extend_from_slice(b"grant ")?;
            put_both(state, *user, *file, out)
        }
        Brief::Revoke { user, file } => {
            out.extend_from_slice(b"revoke ")?;
            put_both(state, *user, *file, out)
        }
        Brief::Remove { file } => {
            out.extend_from_slice(b"remove ")?;
            put_file(state, *file, out)
        }
        Brief::Replace { name, .. } => {
            out.extend_from_slice(b"replace ")?;
            Ok(out.extend_from_slice(name.as_bytes())?)
        }
    }
}

/// The line on a pending update.
fn line_on_update(
    alloc: Global,
    state: &Catalogue,
    update: &Brief<SET_WORDS>,
) -> Result<Octets, Memory>
    requires { AreDistinct state.now.catalogue.users }
    ensures { let c = state.now.catalogue in IfOk result (λ bytes. bytes
        ≡ pending_line (matrix_shown c) c.epoch (Some (plain_brief update.now))) }
{
    let epoch = state.epoch();
    let mut bytes = format!(in alloc; "pending {epoch} ")?.into_bytes();
    put_update(alloc, state, update, &mut bytes)?;
    bytes.push(b'\n')?;
    Ok(Octets::from_vec(bytes))
}

/// The line where nothing is pending.
fn line_on_none(alloc: Global, epoch: u32) -> Result<Octets, Memory>
    ensures { IfOk result (λ bytes. bytes
        ≡ codes "settled " ++ decimal epoch ++ 10 ∷ []) }
{
    let bytes = format!(in alloc; "settled {epoch}\n")?.into_bytes();
    Ok(Octets::from_vec(bytes))
}

/// The line on a pending update that has this encoding, without the bytes of its file.
fn line_on_brief(alloc: Global, state: &Catalogue, brief: &[u8]) -> Result<Octets, Memory>
    requires distinct { AreDistinct state.now.catalogue.users }
    requires brief { (u : SpelledBrief) × HasBriefForm second_form u
        × (brief.now ≡ brief_spelling second_form u) }
    ensures { let c = state.now.catalogue in (u : SpelledBrief) → HasBriefForm second_form u
        → brief.now ≡ brief_spelling second_form u
        → IfOk result (λ bytes. bytes ≡ pending_line (matrix_shown c) c.epoch (Some u)) }
{
    match read_brief(alloc, Form::SECOND, brief) {
        Ok((update, _)) => line_on_update(alloc, state, &update),
        Err(RecordFault::Memory) => Err(Memory),
        Err(RecordFault::BadRecord { at: _ }) => unreachable!(),
    }
}

/// The line on what is pending: the update of this encoding, or none.
pub fn tell_pending(
    alloc: Global,
    state: &Catalogue,
    brief: Option<&[u8]>,
) -> Result<Octets, Memory>
    requires distinct { AreDistinct state.now.catalogue.users }
    requires brief { (u : Option SpelledBrief) × IsSpelled u (option_map (λ b. b.now) brief) }
    ensures { let c = state.now.catalogue in (u : Option SpelledBrief)
        → IsSpelled u (option_map (λ b. b.now) brief.entry)
        → IfOk result (λ bytes. bytes ≡ pending_line (matrix_shown c) c.epoch u) }
{
    match brief {
        Some(brief) => line_on_brief(alloc, state, brief),
        None => line_on_none(alloc, state.epoch()),
    }
}
