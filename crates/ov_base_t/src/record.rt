//! Forms with other limits and sets of another width, and entries that another program spelled.

ghost use Rattle.std.specs.Prelude.{◌≡◌, ◌≤◌, ◌<◌, ◌^◌};
ghost use Rattle.ov_base.specs.declared.limits.TheConstants.{MAX_SET_WORDS};
ghost use Rattle.ov_record.specs.Forms.{first_form, form_of, longest_spelling, second_form};

use ov_base::limits::{MAX_FILE_BYTES, MAX_USERS, SET_WORDS};
use ov_base::{Memory, Name, Octets, UserSet};
use ov_record::*;
use ov_tokens::{Edge, Token};
use std::alloc::Global;
use std::test::Fail;

/// A creation of `f1` for the users 0 and 3, with two tokens.
pub const CREATION: &[u8] = b"\x02\x02f1\
    \x09\0\0\0\0\0\0\0\0\0\0\0\0\0\0\0\0\0\0\0\0\0\0\0\0\0\0\0\0\0\0\0\
    \0\x02\
    \x00\x01\x02\x03\x04\x05\x06\x07\x08\x09\x0a\x0b\x0c\x0d\x0e\x0f\
    \x10\x11\x12\x13\x14\x15\x16\x17\x18\x19\x1a\x1b\x1c\x1d\x1e\x1f\
    defghijklmnopqrstuvwxyz{|}~\x7f\x80\x81\x82\x83\
    \xc8\xc9\xca\xcb\xcc\xcd\xce\xcf\xd0\xd1\xd2\xd3\xd4\xd5\xd6\xd7\
    \xd8\xd9\xda\xdb\xdc\xdd\xde\xdf\xe0\xe1\xe2\xe3\xe4\xe5\xe6\xe7\
    \0\0\0\x05hello";

/// The update that the bytes spell in this form, read off a copy of them.
fn read<const W: usize>(
    alloc: Global,
    form: Form<W>,
    bytes: &[u8],
) -> Result<Update<W>, RecordFault>
    requires width { (1 ≤ W) × (W ≤ MAX_SET_WORDS) }
    requires places { longest_spelling (form_of form) < 2 ^ 32 }
{
    match Octets::copy(alloc, bytes) {
        Ok(bytes) => read_whole(alloc, form, bytes),
        Err(Memory) => Err(RecordFault::Memory),
    }
}

/// The form of the older records, which contracts see as `first_form`.
fn first() -> Form<4>
    ensures { form_of result ≡ first_form }
{
    Form::FIRST
}

/// The form of frames and of new records, which contracts see as `second_form`.
fn second() -> Form<SET_WORDS>
    ensures { form_of result ≡ second_form }
{
    Form::SECOND
}

#[test]
fn limits_of_the_first_form(rt: HostRuntime) {
    let form = first();
    assert_eq!(rt; (form.most_tokens, form.longest), (256, 1_048_576));
}

#[test]
fn limits_of_the_second_form(rt: HostRuntime) {
    let form = second();
    assert_eq!(rt;
        (SET_WORDS, form.most_tokens, form.longest),
        (16, 1_024, 16_777_216)
    );
    assert_eq!(rt;
        (MAX_USERS as usize, MAX_FILE_BYTES),
        (64 * SET_WORDS, form.longest)
    );
}

#[test]
fn both_forms_are_known(rt: HostRuntime) {
    let (first, second): (Form<4>, Form<16>) = forms_are_known();
    assert_eq!(rt; (first.most_tokens, second.most_tokens), (256, 1_024));
}

/// The place of the first wrong byte of the creation, in a form with these limits.
fn creation_wrong_at(alloc: Global, most_tokens: u16, longest: u16) -> Option<u32> {
    let form = Form::<4> {
        most_tokens,
        longest: u32::from(longest),
        removes: false,
    };
    match read(alloc, form, CREATION) {
        Err(RecordFault::BadRecord { at }) => Some(at),
        _ => None,
    }
}

#[test]
fn other_limits_of_a_creation(rt: HostRuntime) {
    assert_eq!(rt; creation_wrong_at(rt.alloc(), 2, 5), None);
    assert_eq!(rt; creation_wrong_at(rt.alloc(), 1, 5), Some(36));
    assert_eq!(rt; creation_wrong_at(rt.alloc(), 2, 4), Some(134));
}

#[test]
fn sets_of_another_width(rt: HostRuntime) {
    let at = |fault| match fault {
        RecordFault::BadRecord { at } => at,
        RecordFault::Memory => 0,
    };
    let wide = Form::<16> {
        most_tokens: 256,
        longest: 1_048_576,
        removes: false,
    };
    let narrow = Form::<1> {
        most_tokens: 256,
        longest: 1_048_576,
        removes: false,
    };
    assert_eq!(rt; read(rt.alloc(), wide, CREATION).err().map(at), Some(132));
    assert_eq!(rt; read(rt.alloc(), narrow, CREATION).err().map(at), Some(46));
}

#[test]
fn entries(rt: HostRuntime) -> Result<(), Fail> {
    let name = Name::read(b"f1").ok_or("a name")?;
    let token = Token {
        bytes: *b"0123456789abcdef0123456789abcdef",
    };
    let mut out = Vec::new(rt.alloc());
    user_entry(&name, 7, 4095, &mut out)?;
    assert_eq!(rt; out.as_slice(), b"\x02f1\0\0\0\x07\0\0\x0f\xff".as_slice());
    out.clear();
    node_entry(
        &UserSet::<1>::empty().with(9),
        &[Edge { from: 3, token }],
        &mut out,
    )?;
    assert_eq!(rt;
        out.as_slice(),
        b"\0\x02\0\0\0\0\0\0\0\x01\0\0\0\x030123456789abcdef0123456789abcdef".as_slice()
    );
    out.clear();
    access_entry(1, 2, &token, &mut out)?;
    assert_eq!(rt;
        out.as_slice(),
        b"\0\0\0\x01\0\0\0\x020123456789abcdef0123456789abcdef".as_slice()
    );
    out.clear();
    file_entry(&name, 1, 5, 3, &token.bytes, Some(2), &mut out)?;
    file_entry(&name, 1, 5, 3, &token.bytes, None, &mut out)?;
    assert_eq!(rt;
        out.as_slice(),
        b"\x02f1\0\0\0\x01\0\0\0\x05\0\0\0\x030123456789abcdef0123456789abcdef\x01\0\0\0\x02\
        \x02f1\0\0\0\x01\0\0\0\x05\0\0\0\x030123456789abcdef0123456789abcdef\0"
            .as_slice()
    );
    Ok(())
}
