//! Writing updates.

ghost use Rattle.std.specs.Prelude.{◌≡◌, ◌≤◌, ◌*◌, ◌++◌, length, IfOk, OnOk};
ghost use Rattle.ov_base.specs.declared.limits.TheConstants.{MAX_SET_WORDS};
ghost use Rattle.ov_record.specs.Spelling.{spelling, body_of, HasForm, IsWithinLimits};
ghost use Rattle.ov_record.specs.Forms.{form_of};
ghost use Rattle.ov_record.specs.Updates.{sealed_update};

use crate::pieces::{put_creation, put_grant, put_removal, put_replacement, put_revocation};
use crate::within::known_form;
use crate::{Form, Update};
use ov_base::{Memory, Octets};
use ov_fields::put_name;
use std::alloc::Global;

/// Appends the spelling without the bytes of the file that is created or replaced.
fn put_front<const W: usize>(
    form: Form<W>,
    update: &Update<W>,
    out: &mut Vec<u8>,
) -> Result<(), Memory>
    requires width { (1 ≤ W) × (W ≤ MAX_SET_WORDS) }
    requires limits { IsWithinLimits (form_of form) (sealed_update update.now) }
    ensures { OnOk result (out.new.items ++ body_of (sealed_update update.now)
        ≡ out.old.items ++ spelling (form_of form.entry) (sealed_update update.now)) }
{
    match update {
        Update::Enrol { name } => {
            out.push(1)?;
            put_name(name, out)
        }
        Update::Create {
            name,
            list,
            tokens,
            tag,
            bytes,
        } => {
            let size = bytes.as_slice().len() as u32;
            put_creation(name, list, tokens.as_slice(), tag, size, out)
        }
        Update::Grant { user, file, token } => put_grant(*user, *file, token, out),
        Update::Revoke { user, file } => put_revocation(*user, *file, out),
        Update::Remove { file } => put_removal(*file, out),
        Update::Replace {
            name,
            tokens,
            tag,
            bytes,
        } => {
            let size = bytes.as_slice().len() as u32;
            put_replacement(name, tokens.as_slice(), tag, size, out)
        }
    }
}

/// The bytes of the file that is created or replaced, in their allocation.
fn into_body<const W: usize>(alloc: Global, update: Update<W>) -> Octets
    ensures { result ≡ body_of (sealed_update update.entry) }
{
    match update {
        Update::Create { bytes, .. } => bytes,
        Update::Replace { bytes, .. } => bytes,
        _ => Octets::new(alloc),
    }
}

/// Puts bytes in front of those of a list, in its allocation where that has the room.
fn put_before(front: &[u8], out: &mut Vec<u8>) -> Result<(), Memory>
    ensures { OnOk result (out.new.items ≡ front.now ++ out.old.items) }
{
    out.reserve_exact(front.len())?;
    out.extend_from_slice(front)?;
    out.rotate_right(front.len());
    Ok(())
}

/// The one spelling of an update in this form, for a W from 1 to `MAX_SET_WORDS`. That of a creation
/// or a replacement is made around the bytes of its file, in their allocation where that has the
/// room.
pub fn into_spelling<const W: usize>(
    alloc: Global,
    form: Form<W>,
    update: Update<W>,
) -> Result<Octets, Memory>
    requires width { (1 ≤ W) × (W ≤ MAX_SET_WORDS) }
    requires limits { IsWithinLimits (form_of form) (sealed_update update) }
    ensures ok { IfOk result (λ octets. octets
        ≡ spelling (form_of form.entry) (sealed_update update.entry)) }
    // What is written can be read again.
    ensures form { HasForm (form_of form.entry) (sealed_update update.entry) }
{
    known_form(form, &update);
    let mut front = Vec::new(alloc);
    put_front(form, &update, &mut front)?;
    let mut whole = into_body(alloc, update).into_vec();
    put_before(&front, &mut whole)?;
    Ok(Octets::from_vec(whole))
}
