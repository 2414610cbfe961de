//! Bodies of records.
ghost use Rattle.std.specs.Prelude.{◌≤◌, length};
ghost use Rattle.ov_base.specs.declared.limits.TheConstants.{MAX_USERS};
ghost use Rattle.ov_record.specs.Briefs.{plain_brief};
ghost use Rattle.ov_record.specs.Forms.{second_form};
ghost use Rattle.ov_record.specs.Stored.{IsBriefWithinLimits};

use ov_base::{Name, UserSet};
use ov_record::{Brief, Form, Stored, write_stored};
use ov_state::WIDTH;
use ov_tokens::{Numbers, Token, Tokens};
use std::alloc::Global;
use std::process::Abort;

/// Bytes of the file: they take three blocks.
const LENGTH: u32 = 8_193;

/// A store doesn't look into the tokens that it is given, but only at how many there are.
const TOKEN: Token = Token { bytes: [0; 32] };

fn name(rt: &impl Abort, text: &[u8]) -> Name {
    Name::read(text).expect(rt, "a name")
}

/// The record of an update with these first blocks.
fn record(rt: &impl Abort, alloc: Global, update: Brief<WIDTH>, firsts: &[u32]) -> Vec<u8>
    requires { IsBriefWithinLimits second_form (plain_brief update) }
{
    let mut places = Numbers::new(alloc);
    for first in firsts {
        places.push(*first).expect(rt, "memory");
    }
    let mut body = Vec::new(alloc);
    write_stored(Form::SECOND, &Stored { update, places }, &mut body).expect(rt, "memory");
    body
}

pub(crate) fn enrol(rt: &impl Abort, alloc: Global, text: &[u8]) -> Vec<u8> {
    record(
        rt,
        alloc,
        Brief::Enrol {
            name: name(rt, text),
        },
        &[],
    )
}

/// The creation of a file for the first two users.
fn create_with(rt: &impl Abort, alloc: Global, tokens: Tokens, firsts: &[u32]) -> Vec<u8>
    requires { length tokens ≤ MAX_USERS }
{
    let update = Brief::Create {
        name: name(rt, b"f"),
        list: UserSet::empty().with(0).with(1),
        tokens,
        tag: [0; 32],
        length: LENGTH,
    };
    record(rt, alloc, update, firsts)
}

/// The creation of the first file for the first two users, whose base node comes with it.
pub(crate) fn create(rt: &impl Abort, alloc: Global, firsts: &[u32]) -> Vec<u8> {
    let mut tokens = Tokens::new(alloc);
    tokens.push(TOKEN).expect(rt, "memory");
    tokens.push(TOKEN).expect(rt, "memory");
    create_with(rt, alloc, tokens, firsts)
}

/// The creation of a later file for them, whose base node is there.
pub(crate) fn create_again(rt: &impl Abort, alloc: Global, firsts: &[u32]) -> Vec<u8> {
    create_with(rt, alloc, Tokens::new(alloc), firsts)
}

/// The same creation with one first block in a record of the first format, in which a set has 32
/// bytes.
pub(crate) fn create_of_first_format(rt: &impl Abort, alloc: Global) -> Vec<u8> {
    let mut body = Vec::new(alloc);
    body.extend_from_slice(b"\x02\x01f\x03")
        .expect(rt, "memory");
    body.resize(35, 0).expect(rt, "memory");
    // The number of tokens, these and the tag; the number of bytes, and block 0.
    body.extend_from_slice(b"\0\x02").expect(rt, "memory");
    body.resize(133, 0).expect(rt, "memory");
    body.extend_from_slice(b"\0\0\x20\x01\0\0\0\0")
        .expect(rt, "memory");
    body
}

pub(crate) fn revoke(rt: &impl Abort, alloc: Global, user: u32, firsts: &[u32]) -> Vec<u8> {
    record(rt, alloc, Brief::Revoke { user, file: 0 }, firsts)
}

/// A grant to a user who has the file's base key already.
pub(crate) fn grant(rt: &impl Abort, alloc: Global, user: u32, firsts: &[u32]) -> Vec<u8> {
    let update = Brief::Grant {
        user,
        file: 0,
        token: None,
    };
    record(rt, alloc, update, firsts)
}

pub(crate) fn remove(rt: &impl Abort, alloc: Global, file: u32, firsts: &[u32]) -> Vec<u8> {
    record(rt, alloc, Brief::Remove { file }, firsts)
}

/// The replacement of the file of this name by one as long, for a list whose base node is there.
pub(crate) fn replace(rt: &impl Abort, alloc: Global, text: &[u8], firsts: &[u32]) -> Vec<u8> {
    let update = Brief::Replace {
        name: name(rt, text),
        tokens: Tokens::new(alloc),
        tag: [0; 32],
        length: LENGTH,
    };
    record(rt, alloc, update, firsts)
}
