//! Coats and tags that another program gives, and the rule of both modes.
ghost use Rattle.std.specs.Prelude.{◌≤◌};
ghost use Rattle.ov_base.specs.declared.limits.TheConstants.{MAX_SET_WORDS};

mod vectors;

use ov_base::{Key, Mode, UserSet};
use ov_surface::*;
use std::process::Abort;
use vectors::{ACCESS, NEW, OLD, PARTS, PLAINTEXT, Part};

/// Makes sure that the first coats are those of the part, and that its tag is.
fn expect_first(rt: &impl Abort, part: &Part) {
    let count = part.base.len();
    assert!(rt; count <= 40 && part.start <= 4294967296 - count as u64);
    let mut text = PLAINTEXT;
    let bytes = &mut text[..count];
    assert_eq!(rt; file_tag(&ACCESS, part.file, bytes), part.tag);
    base_encrypt(&ACCESS, part.file, part.start, bytes);
    assert_eq!(rt; &bytes[..], part.base);
    over_encrypt(&OLD, part.file, part.start, bytes);
    assert_eq!(rt; &bytes[..], part.old);
}

/// Makes sure that a change of keys makes `after` of the part's bytes `before`.
fn expect_change(
    rt: &impl Abort,
    part: &Part,
    keys: (Option<&Key>, Option<&Key>),
    before: &[u8],
    after: &[u8],
) {
    let count = before.len();
    assert!(rt; count <= 40 && part.start <= 4294967296 - count as u64);
    let mut text = [0u8; 40];
    let bytes = &mut text[..count];
    bytes.copy_from_slice(before);
    reencrypt(keys.0, keys.1, part.file, part.start, bytes);
    assert_eq!(rt; &bytes[..], after);
}

#[test]
fn coats_of_another_program(rt: HostRuntime) {
    for part in &PARTS {
        expect_first(&rt, part);
        expect_change(&rt, part, (Some(&OLD), Some(&NEW)), part.old, part.new);
        expect_change(&rt, part, (Some(&NEW), None), part.new, part.base);
        expect_change(&rt, part, (None, Some(&OLD)), part.base, part.old);
    }
}

/// The rule for a list of users 0 and 1, and for holders who are just these or have another with
/// them.
fn wanted_surfaces<const W: usize>(rt: &impl Abort)
    requires { (1 ≤ W) × (W ≤ MAX_SET_WORDS) }
{
    let list = UserSet::<W>::empty().with(0).with(1);
    let more = list.with(63);
    assert!(rt; wanted(Mode::Full, &list, &list) == Some(list.copy()));
    assert!(rt; wanted(Mode::Full, &list, &more) == Some(list.copy()));
    assert!(rt; wanted(Mode::Delta, &list, &list).is_none());
    assert!(rt; wanted(Mode::Delta, &list, &more) == Some(list));
}

#[test]
fn wanted_surfaces_at_each_width(rt: HostRuntime) {
    wanted_surfaces::<1>(&rt);
    wanted_surfaces::<4>(&rt);
    wanted_surfaces::<16>(&rt);
}
